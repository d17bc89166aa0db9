// Doors: the public calls of label and windows_label once more, in one line each, under their own contracts word for word.
// Nobody calls them. They are there to be changed: each edit under must-fail puts an impostor behind a door, and the door's contract must refuse it.
#![tactic(auto)]

ghost use Rattle.std.specs.Prelude.{◌≡◌};
ghost use Rattle.units.specs.Answer.{Ends};
ghost use Rattle.units.specs.Meanings.{card_means};
ghost use Rattle.label.specs.Labels.{label_in};
ghost use Rattle.label.specs.Calls.{read_label_answer, write_label_outcome};
ghost use Rattle.label.specs.Judging.{judge_answer};
ghost use Rattle.label.specs.Meanings.{judged_means};
ghost use Rattle.windows_label.specs.Handed.{handed_label, handed_set};

use label::{Dated, Label, SetRefusal};
use units::{Place, Reason, Refusal, Slot};

pub fn label_in(bytes: &[u8]) -> Result<Label, Reason>
    ensures { card_means result ≡ label_in bytes.now }
{
    label::label_in(bytes)
}

pub fn read_label(img: &[u8], b: u64, slot: Slot) -> Result<Label, Reason>
    ensures { card_means result ≡ read_label_answer b img.now slot.0 }
{
    label::read_label(img, b, slot)
}

pub fn write_label(img: &mut [u8], b: u64, slot: Slot, label: Label) -> Result<(), Reason>
    ensures { Ends (write_label_outcome b img.old slot.0 label) (card_means result) img.new }
{
    label::write_label(img, b, slot, label)
}

pub fn judge<'a>(img: &'a [u8], b: u64, slots: &'a [u32]) -> Result<Dated, SetRefusal>
    ensures { judged_means result ≡ judge_answer b img.now slots.now }
{
    label::judge(img, b, slots)
}

pub fn handed_label<'a>(
    head: &'a [u8],
    tail: &'a [u8],
    blocks: u64,
    b: u64,
    slot: Slot,
    bytes: &'a [u8],
) -> Result<Label, Reason>
    ensures { card_means result ≡ handed_label b blocks head.now tail.now slot.0 bytes.now }
{
    windows_label::read_label(head, tail, blocks, b, slot, bytes)
}

pub fn handed_judge<'a>(
    head: &'a [u8],
    tail: &'a [u8],
    blocks: u64,
    b: u64,
    slots: &'a [u32],
    labels: &'a [u8],
) -> Result<Dated, SetRefusal>
    ensures { judged_means result ≡ handed_set b blocks head.now tail.now slots.now labels.now }
{
    windows_label::judge(head, tail, blocks, b, slots, labels)
}
