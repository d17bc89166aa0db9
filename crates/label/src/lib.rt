// The labels of maps, for the tablet: read, written, and a set of slots judged to have one date and one style revision (document 02, 13/13).
// It stands on the public calls of `card` and sees no more of them than their contracts. Here stand the public calls: each takes every image and every number.
#![tactic(auto)]

pub mod inner; // inner.rt: a label in its bytes, and one slot beside the first
pub mod judging; // judging.rt: the slots of a set in their order

ghost use Rattle.std.specs.Prelude.{◌≡◌};
ghost use Rattle.units.specs.Answer.{Ends};
ghost use Rattle.units.specs.Meanings.{card_means};
ghost use Rattle.label.specs.Labels.{label_in};
ghost use Rattle.label.specs.Calls.{read_label_answer, write_label_outcome};
ghost use Rattle.label.specs.Judging.{judge_answer};
ghost use Rattle.label.specs.Meanings.{judged_means};

use units::{BytePlace, Place, Reason, Refusal, Slot};

// What a label tells: the map's date, its style revision and its sheet.
#[repr(C)]
#[derive(Clone, Copy, Debug, PartialEq, Eq)]
pub struct Label {
    pub year: u16,
    pub month: u8,
    pub day: u8,
    pub style: u16,
    pub sheet: u16,
}

// The date and the style revision of a set.
#[repr(C)]
#[derive(Clone, Copy, Debug, PartialEq, Eq)]
pub struct Dated {
    pub year: u16,
    pub month: u8,
    pub day: u8,
    pub style: u16,
}

// Why a set is refused. By 18, 23, 34 to 37 the slot is that of the list, as it was given; by 1, 38 and the card check's it is 0.
#[derive(Clone, Copy, Debug, PartialEq, Eq)]
pub struct SetRefusal {
    pub reason: Reason,
    pub slot: Slot,
}

// The label in lent bytes, those after the 13th not looked at: 2 fewer than 13, 34 another mark, 35 another version, 36 no date.
pub fn label_in(bytes: &[u8]) -> Result<Label, Reason>
    ensures { card_means result ≡ label_in bytes.now }
{
    if bytes.len() < 13 {
        return Err(Reason {
            what: Refusal::Short,
            place: Place::Nowhere,
        });
    }
    inner::label_of(bytes)
}

// The label of a slot's partition: 1, the card check's with their places, 18 no such slot, 23 unused, 34, 35, 36. A partition has at least one block, so 24 never comes.
pub fn read_label(img: &[u8], b: u64, slot: Slot) -> Result<Label, Reason>
    ensures { card_means result ≡ read_label_answer b img.now slot.0 }
{
    let mut bytes = [0u8; 13];
    card::read_payload(img, b, slot, BytePlace(0), &mut bytes)?;
    inner::label_of(&bytes)
}

// Writes a label at the start of a slot's partition, 13 bytes and nothing else: 1, the card check's, 18, 23, then 36 no date. It is a payload write.
pub fn write_label(img: &mut [u8], b: u64, slot: Slot, label: Label) -> Result<(), Reason>
    ensures { Ends (write_label_outcome b img.old slot.0 label) (card_means result) img.new }
{
    card::payload_place(img, b, slot, BytePlace(0), 13)?;
    if !inner::good_date(label.month, label.day) {
        return Err(Reason {
            what: Refusal::BadDate,
            place: Place::Nowhere,
        });
    }
    let bytes = inner::label_bytes(label);
    card::write_payload(img, b, slot, BytePlace(0), &bytes)?;
    Ok(())
}

// Whether all slots of a list have one date and one style revision: 1, 38 an empty list, the card check's; then slot by slot in the list's order 18, 23, 34, 35, 36 and
// 37, another date or revision than the first slot's. The sheet is not compared. The slots are plain numbers: the prover covers no lent slice of the tuple struct Slot.
pub fn judge<'a>(img: &'a [u8], b: u64, slots: &'a [u32]) -> Result<Dated, SetRefusal>
    ensures { judged_means result ≡ judge_answer b img.now slots.now }
{
    if !units::good_block_size(b) {
        return Err(judging::no_slot(Reason {
            what: Refusal::BadBlockSize,
            place: Place::Nowhere,
        }));
    }
    if slots.len() == 0 {
        return Err(judging::no_slot(Reason {
            what: Refusal::EmptyList,
            place: Place::Nowhere,
        }));
    }
    match card::check(img, b) {
        Err(w) => Err(judging::no_slot(w)),
        Ok(()) => judging::judge_slots(img, b, slots),
    }
}
