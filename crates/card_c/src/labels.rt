// The labels of maps for C (document 02, 13/13), on an image, and on two windows with the labels handed in.
ghost use Rattle.units.specs.Meanings.{card_means};
ghost use Rattle.std.specs.Prelude.{◌≡◌};
ghost use Rattle.units.specs.Answer.{Ends};
ghost use Rattle.label.specs.Calls.{read_label_answer, write_label_outcome};
ghost use Rattle.label.specs.Judging.{judge_answer};
ghost use Rattle.label.specs.Meanings.{judged_means};
ghost use Rattle.windows_label.specs.Handed.{handed_label, handed_set};
ghost use Rattle.answers_c.specs.Crossing.{outcome_to_c};
ghost use Rattle.card_c.specs.CardExports.{answer_to_c, label_to_c, judged_to_c};

use crate::answers::CardAnswer;
use label::{Dated, Label, SetRefusal};
use units::{Reason, Slot};

// Beside a refusal the label is zero.
#[repr(C)]
#[derive(Clone, Copy, Debug, PartialEq, Eq)]
pub struct CardLabelRead {
    pub number: u32,
    pub place: u32,
    pub differs: u32,
    pub label: Label,
}

// The slot is the one of the list that 18, 23 and 34 to 37 name, as it was given, else 0. Beside a refusal the date and the style revision are zero.
#[repr(C)]
#[derive(Clone, Copy, Debug, PartialEq, Eq)]
pub struct CardJudged {
    pub number: u32,
    pub slot: u32,
    pub place: u32,
    pub differs: u32,
    pub year: u16,
    pub month: u8,
    pub day: u8,
    pub style: u16,
}

impl From<Result<Label, Reason>> for CardLabelRead {
    ghost from_gives = { λ r a. a ≡ label_to_c (card_means r) };

    #[tactic(auto, unfolding(crate::specs::CardExports::crossed_at))]
    fn from(r: Result<Label, Reason>) -> CardLabelRead {
        match r {
            Ok(label) => CardLabelRead {
                number: 0,
                place: 0,
                differs: 0,
                label,
            },
            Err(w) => {
                let k = CardAnswer::from(w);
                CardLabelRead {
                    number: k.number,
                    place: k.place,
                    differs: k.differs,
                    label: Label {
                        year: 0,
                        month: 0,
                        day: 0,
                        style: 0,
                        sheet: 0,
                    },
                }
            }
        }
    }
}

impl From<Result<Dated, SetRefusal>> for CardJudged {
    ghost from_gives = { λ r a. a ≡ judged_to_c (judged_means r) };

    #[tactic(auto, unfolding(crate::specs::CardExports::crossed_at))]
    fn from(r: Result<Dated, SetRefusal>) -> CardJudged {
        match r {
            Ok(d) => CardJudged {
                number: 0,
                slot: 0,
                place: 0,
                differs: 0,
                year: d.year,
                month: d.month,
                day: d.day,
                style: d.style,
            },
            Err(w) => {
                let k = CardAnswer::from(w.reason);
                CardJudged {
                    number: k.number,
                    slot: w.slot.0,
                    place: k.place,
                    differs: k.differs,
                    year: 0,
                    month: 0,
                    day: 0,
                    style: 0,
                }
            }
        }
    }
}

// The label of a slot's partition: 18, 23, 34, 35, 36 after the check.
#[unsafe(no_mangle)]
pub extern "C" fn card_read_label(img: &[u8], b: u64, slot: u32) -> CardLabelRead
    ensures { result ≡ label_to_c (read_label_answer b img.now slot) }
{
    label::read_label(img, b, Slot(slot)).into()
}

// Writes a label at the start of a slot's partition: 18, 23, 36 after the check.
#[unsafe(no_mangle)]
pub extern "C" fn card_write_label(img: &mut [u8], b: u64, slot: u32, label: Label) -> CardAnswer
    ensures { Ends (outcome_to_c answer_to_c (write_label_outcome b img.old slot label)) result img.new }
{
    label::write_label(img, b, Slot(slot), label).into()
}

// Whether the slots of a list have one date and one style revision: 1, 38, the check's, then slot by slot 18, 23, 34, 35, 36, 37.
#[unsafe(no_mangle)]
pub extern "C" fn card_judge<'a>(img: &'a [u8], b: u64, slots: &'a [u32]) -> CardJudged
    ensures { result ≡ judged_to_c (judge_answer b img.now slots.now) }
{
    label::judge(img, b, slots).into()
}

// The label of a slot by two windows, whose bytes are handed in: 18, 23, 2 fewer than 13 bytes, 34, 35, 36 after the check.
#[unsafe(no_mangle)]
pub extern "C" fn card_window_read_label<'a>(
    head: &'a [u8],
    tail: &'a [u8],
    blocks: u64,
    b: u64,
    slot: u32,
    bytes: &'a [u8],
) -> CardLabelRead
    ensures { result ≡ label_to_c (handed_label b blocks head.now tail.now slot bytes.now) }
{
    windows_label::read_label(head, tail, blocks, b, Slot(slot), bytes).into()
}

// The judgement by two windows, with 13 bytes handed in for each slot: 1, 38, the windows', the check's, 2 not 13 bytes a slot, then slot by slot 18, 23, 34, 35, 36, 37.
#[unsafe(no_mangle)]
pub extern "C" fn card_window_judge<'a>(
    head: &'a [u8],
    tail: &'a [u8],
    blocks: u64,
    b: u64,
    slots: &'a [u32],
    labels: &'a [u8],
) -> CardJudged
    ensures { result ≡ judged_to_c (handed_set b blocks head.now tail.now slots.now labels.now) }
{
    windows_label::judge(head, tail, blocks, b, slots, labels).into()
}
