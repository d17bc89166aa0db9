// A GUID told and read in the usual form of 36 characters, as ebd0a0a2-b9e5-4433-87c0-68b6b72699c7.
#![tactic(auto)]

pub mod inner;

ghost use Rattle.std.specs.Prelude.{◌≡◌};
ghost use Rattle.units.specs.Answer.{Ends};
ghost use Rattle.units.specs.Meanings.{means};
ghost use Rattle.text.specs.Texts.{text_stored};
ghost use Rattle.guid_text.specs.GuidTexts.{text_of_guid, guid_of_text};

use text::deliver;
use units::{Guid, Refusal};

// Stores the text of a GUID, 36 characters in lower case and a zero: 2.
pub fn guid_to_text(out: &mut [u8], guid: Guid) -> Result<usize, Refusal>
    ensures { Ends (text_stored out.old (text_of_guid guid)) (means result) out.new }
{
    let mut words = [0u8; 36];
    inner::put_guid_text(&mut words, guid);
    deliver(out, &words)
}

// The GUID of a text, or the number that refuses it with the place of the first byte that is wrong.
#[repr(C)]
#[derive(Clone, Copy)]
pub struct GuidOfText {
    pub number: u32,
    pub at: usize,
    pub guid: Guid,
}

// Reads the usual form of a GUID, with digits of either case: 39 where the text has another form.
#[tactic(auto, using(units::proofs::Laws::tests), unfolding(crate::specs::GuidTexts::guid_of_text))]
pub fn guid_from_text(text: &[u8]) -> GuidOfText
    ensures { result ≡ guid_of_text text.now }
{
    let at = inner::first_wrong(text);
    if at < 36 {
        return inner::bad_guid(at);
    }
    if text.len() != 36 {
        return inner::bad_guid(36);
    }
    GuidOfText {
        number: 0,
        at: 0,
        guid: inner::guid_in(text),
    }
}
