// A partition's name from and to UTF-8: the name is 36 UTF-16 units, ended by the first zero (UEFI 2.10, 5.3.3).
#![tactic(auto)]

pub mod inner;

ghost use Rattle.std.specs.Prelude.{◌≡◌};
ghost use Rattle.units.specs.Answer.{Ends};
ghost use Rattle.units.specs.Meanings.{means};
ghost use Rattle.text.specs.Texts.{text_stored};
ghost use Rattle.names.specs.NameTexts.{name_of_text, name_text};

use units::Refusal;

// What a text gives: number 0 and its units with zeros behind them; or 39 or 40, the place of the character that was refused, and zeros alone.
#[repr(C)]
#[derive(Clone, Copy)]
pub struct NameOfText {
    pub number: u32,
    pub at: usize,
    pub name: [u16; 36],
}

// The name that a text in UTF-8 gives: 39 for bytes that are no character, and for the character 0, where the name would end; 40 where its units pass 36.
pub fn name_from_utf8(text: &[u8]) -> NameOfText
    ensures { result ≡ name_of_text text.now }
{
    let mut name = [0u16; 36];
    let mut at = 0;
    let mut k = 0;
    // No `for` and no chunks: a character takes one to four bytes, so the place goes on by as many.
    while at < text.len() {
        let s = inner::scalar_at(text, at);
        if s.size == 0 {
            return inner::refused(39, at);
        }
        if s.code == 0 {
            return inner::refused(39, at);
        }
        let n = inner::unit_count(s.code);
        if 36 < k + n {
            return inner::refused(40, at);
        }
        inner::put_units(&mut name, k, s.code);
        k += n;
        at += s.size;
    }
    NameOfText {
        number: 0,
        at: 0,
        name,
    }
}

// The text of a name in UTF-8, stored in lent bytes with a zero behind it: its units before the first zero, at most 36 of those lent; a surrogate that has no partner is U+FFFD.
// 2 where there is no room; 109 bytes are always enough.
pub fn name_to_utf8(out: &mut [u8], name: &[u16]) -> Result<usize, Refusal>
    ensures { Ends (text_stored out.old (name_text name.now)) (means result) out.new }
{
    let t = inner::compose(name);
    text::deliver(out, &t.words[..t.count])
}
