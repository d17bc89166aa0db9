// The words for a refusal: its number, its name and what happened, with the table or the slot that it names.
#![tactic(auto)]

mod lines; // lines.rt: the words of each line
mod slots; // slots.rt: the slot behind a line

ghost use Rattle.std.specs.Prelude.{◌≡◌, ◌≤◌, ◌<◌, length};
ghost use Rattle.std.proofs.lemmas.List.Edits.{sets};
ghost use Rattle.units.specs.Answer.{Ends};
ghost use Rattle.units.specs.Meanings.{means};
ghost use Rattle.text.specs.Texts.{text_stored};
ghost use Rattle.message.specs.Words.{line_for, message_text};

use text::deliver;
use units::Refusal;

// The line of a number and the place that it names: 1 the front table, 2 the back one, 3 the disk GUIDs, 4 a slot.
#[tactic(auto, using(units::proofs::Laws::tests), unfolding(crate::specs::Words::line_for, crate::specs::Words::disagree_line, crate::specs::Words::placed_line))]
fn line_for(number: u32, place: u32) -> u32
    ensures { (result ≡ line_for number place) × (result < 52) }
{
    match (number, place) {
        (4, 1 | 2) => 41 + place,
        (5, 1 | 2) => 43 + place,
        (6, 1 | 2) => 45 + place,
        (16, 1 | 2) => 47 + place,
        (17, 3) => 50,
        (17, 4) => 51,
        (0..=40, _) => number,
        _ => 41,
    }
}

// The whole message at the start of a buffer, and its length: at most 158, so that 160 bytes are enough for it and a zero.
fn compose(out: &mut [u8; 160], number: u32, place: u32, slot: u32) -> usize
    ensures { (result ≡ length (message_text number place slot)) × (result ≤ 158) × (out.new ≡ sets out.old 0 (message_text number place slot)) }
{
    let line = line_for(number, place);
    let words = lines::words_of(line).as_bytes();
    let n = words.len();
    out[..n].copy_from_slice(words);
    slots::put_slot(out, n, line, slot)
}

// Stores the words of a number, its place and its slot, and a zero behind them: 2 where there is no room. A place that the number does not have is left out;
// a slot is told wherever it is not 0 and the line has no table or slot of its own.
pub fn message(out: &mut [u8], number: u32, place: u32, slot: u32) -> Result<usize, Refusal>
    ensures { Ends (text_stored out.old (message_text number place slot)) (means result) out.new }
{
    let mut words = [0u8; 160];
    let n = compose(&mut words, number, place, slot);
    deliver(out, &words[..n])
}
