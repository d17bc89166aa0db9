// The slots of a set in their order. A leaf, no public call.
ghost use Rattle.std.specs.Prelude.{◌≡◌, None};
ghost use Rattle.label.specs.Judging.{at_end, judge_from, shown_in};
ghost use Rattle.label.specs.Meanings.{judged_means};

use crate::{Dated, SetRefusal, inner};
use units::{Place, Reason, Refusal, Slot};

// A refusal that names no slot of the list.
pub fn no_slot(reason: Reason) -> SetRefusal
    ensures { result ≡ record { reason = reason; slot = record { 0 = 0 } } }
{
    SetRefusal {
        reason,
        slot: Slot(0),
    }
}

// Where the list ends: 38 if there was no slot.
pub fn at_end(agreed: Option<Dated>) -> Result<Dated, SetRefusal>
    ensures { judged_means result ≡ at_end agreed }
{
    match agreed {
        None => Err(no_slot(Reason {
            what: Refusal::EmptyList,
            place: Place::Nowhere,
        })),
        Some(date) => Ok(date),
    }
}

// Each slot in the list's order, up to the first that is refused.
pub fn judge_slots(img: &[u8], b: u64, slots: &[u32]) -> Result<Dated, SetRefusal>
    ensures { judged_means result ≡ judge_from None (shown_in b img.now slots.now) }
{
    let mut agreed = None;
    for &slot in slots {
        match inner::step(agreed, crate::read_label(img, b, Slot(slot))) {
            Err(reason) => {
                return Err(SetRefusal {
                    reason,
                    slot: Slot(slot),
                });
            }
            Ok(date) => {
                agreed = Some(date);
            }
        }
    }
    at_end(agreed)
}
