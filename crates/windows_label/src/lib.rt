// Labels and screen sets of a card by two lent windows, for cards in files of any size: the labels are handed in, 13 bytes a slot, since the maps are in no window. Document 02, 13/13 over 10/13.
// It stands on the public calls of the windows and on the leaves that judge on an image.
#![tactic(auto)]

pub mod inner; // inner.rt: the slots of a set in their order

ghost use Rattle.units.specs.Meanings.{card_means};
ghost use Rattle.std.specs.Prelude.{◌≡◌};
ghost use Rattle.label.specs.Meanings.{judged_means};
ghost use Rattle.windows_label.specs.Handed.{handed_label, handed_set};

use label::{Dated, Label, SetRefusal};
use units::{BytePlace, Place, Reason, Refusal, Slot};

// The label of a slot, whose bytes are handed in, those after the 13th not looked at: 1, 3, 8, 10, 32, the card check's, 18 no such slot, 23 unused, 2 fewer than 13 bytes, 34, 35, 36.
pub fn read_label<'a>(
    head: &'a [u8],
    tail: &'a [u8],
    blocks: u64,
    b: u64,
    slot: Slot,
    bytes: &'a [u8],
) -> Result<Label, Reason>
    ensures { card_means result ≡ handed_label b blocks head.now tail.now slot.0 bytes.now }
{
    windows_listing::payload_place(head, tail, blocks, b, slot, BytePlace(0), 13)?;
    label::label_in(bytes)
}

// Whether all slots of a list have one date and one style revision, by labels that are handed in, 13 bytes a slot in the list's order: 1, 38 an empty list, 3, 8, 10, 32, the card check's, 2 not
// 13 bytes a slot; then slot by slot 18, 23, 34, 35, 36, 37. A slot that is named twice is judged as one, by the label at its first place.
pub fn judge<'a>(
    head: &'a [u8],
    tail: &'a [u8],
    blocks: u64,
    b: u64,
    slots: &'a [u32],
    labels: &'a [u8],
) -> Result<Dated, SetRefusal>
    ensures { judged_means result ≡ handed_set b blocks head.now tail.now slots.now labels.now }
{
    if !units::good_block_size(b) {
        return Err(label::judging::no_slot(Reason {
            what: Refusal::BadBlockSize,
            place: Place::Nowhere,
        }));
    }
    if slots.len() == 0 {
        return Err(label::judging::no_slot(Reason {
            what: Refusal::EmptyList,
            place: Place::Nowhere,
        }));
    }
    match windows::check(head, tail, blocks, b) {
        Err(w) => Err(label::judging::no_slot(w)),
        Ok(()) => {
            if !inner::thirteen_each(labels.len(), slots.len()) {
                return Err(label::judging::no_slot(Reason {
                    what: Refusal::Short,
                    place: Place::Nowhere,
                }));
            }
            inner::judge_handed(head, tail, blocks, b, slots, labels)
        }
    }
}
