// The library's text calls for C and for whatever links as C does, in an archive of their own beside gpt_c and card_c: include/card.h has their prototypes.
#![tactic(auto)]

ghost use Rattle.std.specs.Prelude.{◌≡◌};
ghost use Rattle.units.specs.Answer.{Ends};
ghost use Rattle.units.specs.Meanings.{means};
ghost use Rattle.text.specs.Texts.{text_stored};
ghost use Rattle.guid_text.specs.GuidTexts.{text_of_guid, guid_of_text};
ghost use Rattle.message.specs.Words.{message_text};
ghost use Rattle.names.specs.NameTexts.{name_text, name_of_text};
ghost use Rattle.answers_c.specs.Crossing.{outcome_to_c};
ghost use Rattle.text_c.specs.Exports.{version, text_to_c};

use guid_text::GuidOfText;
use names::NameOfText;
use units::{Guid, Refusal};

// The version of the library.
#[repr(C)]
#[derive(Clone, Copy, Debug, PartialEq, Eq)]
pub struct CardVersion {
    pub major: u32,
    pub minor: u32,
    pub patch: u32,
}

// The number first, 0 for accepted, and the length of the text that was stored, without the zero behind it.
#[repr(C)]
#[derive(Clone, Copy, Debug, PartialEq, Eq)]
pub struct CardText {
    pub number: u32,
    pub length: usize,
}

impl From<Result<usize, Refusal>> for CardText {
    ghost from_gives = { λ r a. a ≡ text_to_c (means r) };

    #[tactic(auto, unfolding(answers_c::specs::Crossing::crossed))]
    fn from(r: Result<usize, Refusal>) -> CardText {
        match r {
            Ok(length) => CardText { number: 0, length },
            Err(w) => CardText {
                number: w.number(),
                length: 0,
            },
        }
    }
}

// The version of the library that runs.
#[unsafe(no_mangle)]
pub extern "C" fn card_version() -> CardVersion
    ensures { result ≡ version }
{
    CardVersion {
        major: 0,
        minor: 1,
        patch: 0,
    }
}

// The words of a number, the place and the slot that it names, and a zero behind them: 2.
#[unsafe(no_mangle)]
pub extern "C" fn card_message(out: &mut [u8], number: u32, place: u32, slot: u32) -> CardText
    ensures { Ends (outcome_to_c text_to_c (text_stored out.old (message_text number place slot))) result out.new }
{
    message::message(out, number, place, slot).into()
}

// The text of a GUID and a zero behind it: 2.
#[unsafe(no_mangle)]
pub extern "C" fn gpt_guid_to_text(out: &mut [u8], guid: Guid) -> CardText
    ensures { Ends (outcome_to_c text_to_c (text_stored out.old (text_of_guid guid))) result out.new }
{
    guid_text::guid_to_text(out, guid).into()
}

// The GUID of a text: 39.
#[unsafe(no_mangle)]
pub extern "C" fn gpt_guid_from_text(text: &[u8]) -> GuidOfText
    ensures { result ≡ guid_of_text text.now }
{
    guid_text::guid_from_text(text)
}

// A name in UTF-8 and a zero behind it: 2.
#[unsafe(no_mangle)]
pub extern "C" fn gpt_name_to_utf8(out: &mut [u8], name: &[u16]) -> CardText
    ensures { Ends (outcome_to_c text_to_c (text_stored out.old (name_text name.now))) result out.new }
{
    names::name_to_utf8(out, name).into()
}

// The name of a text in UTF-8: 39, 40.
#[unsafe(no_mangle)]
pub extern "C" fn gpt_name_from_utf8(text: &[u8]) -> NameOfText
    ensures { result ≡ name_of_text text.now }
{
    names::name_from_utf8(text)
}
