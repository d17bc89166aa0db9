// Doors: the public calls of text, guid_text, message and names once more, in one line each, under their own contracts word for word.
// Nobody calls them. They are there to be changed: each edit under must-fail puts an impostor behind a door, and the door's contract must refuse it.
#![tactic(auto)]

ghost use Rattle.std.specs.Prelude.{◌≡◌};
ghost use Rattle.units.specs.Answer.{Ends};
ghost use Rattle.units.specs.Meanings.{means};
ghost use Rattle.text.specs.Texts.{text_stored};
ghost use Rattle.guid_text.specs.GuidTexts.{text_of_guid, guid_of_text};
ghost use Rattle.message.specs.Words.{message_text};
ghost use Rattle.names.specs.NameTexts.{name_text, name_of_text};

use guid_text::GuidOfText;
use names::NameOfText;
use units::{Guid, Refusal};

pub fn deliver(out: &mut [u8], words: &[u8]) -> Result<usize, Refusal>
    ensures { Ends (text_stored out.old words.now) (means result) out.new }
{
    text::deliver(out, words)
}

pub fn message(out: &mut [u8], number: u32, place: u32, slot: u32) -> Result<usize, Refusal>
    ensures { Ends (text_stored out.old (message_text number place slot)) (means result) out.new }
{
    message::message(out, number, place, slot)
}

pub fn guid_to_text(out: &mut [u8], guid: Guid) -> Result<usize, Refusal>
    ensures { Ends (text_stored out.old (text_of_guid guid)) (means result) out.new }
{
    guid_text::guid_to_text(out, guid)
}

pub fn guid_from_text(text: &[u8]) -> GuidOfText
    ensures { result ≡ guid_of_text text.now }
{
    guid_text::guid_from_text(text)
}

pub fn name_to_utf8(out: &mut [u8], name: &[u16]) -> Result<usize, Refusal>
    ensures { Ends (text_stored out.old (name_text name.now)) (means result) out.new }
{
    names::name_to_utf8(out, name)
}

pub fn name_from_utf8(text: &[u8]) -> NameOfText
    ensures { result ≡ name_of_text text.now }
{
    names::name_from_utf8(text)
}
