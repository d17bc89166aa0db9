// A text for people, handed over in bytes that the caller lends, with a zero behind it as C expects. `inner` has the digits of numbers.
#![tactic(auto)]

pub mod inner;

ghost use Rattle.units.specs.Answer.{Ends};
ghost use Rattle.units.specs.Meanings.{means};
ghost use Rattle.text.specs.Texts.{text_stored};

use units::Refusal;

// Stores a text in lent bytes, and a zero behind it: 2 where there is no room for both.
pub fn deliver(out: &mut [u8], words: &[u8]) -> Result<usize, Refusal>
    ensures { Ends (text_stored out.old words.now) (means result) out.new }
{
    let n = words.len();
    if out.len() <= n {
        return Err(Refusal::Short);
    }
    out[..n].copy_from_slice(words);
    out[n] = 0;
    Ok(n)
}
