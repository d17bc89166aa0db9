// The slots of a set in their order, with the labels that were handed in. Leaves, no public calls.
ghost use Rattle.std.specs.Prelude.{◌≡◌, None, ◌*◌, eqb, length};
ghost use Rattle.label.specs.Judging.{judge_from};
ghost use Rattle.label.specs.Meanings.{judged_means};
ghost use Rattle.windows_label.specs.Handed.{first_place, handed_from};

use label::{Dated, SetRefusal};
use units::Slot;

// Whether n bytes are 13 for each of so many slots.
#[tactic(auto, using(crate::proofs::Ways::thirteens))]
pub fn thirteen_each(n: usize, slots: usize) -> bool
    ensures { result ≡ eqb n (13 * slots) }
{
    n % 13 == 0 && n / 13 == slots
}

// The place of the first of the slots that is this one, counted from 0; how many slots there are, if none is.
pub fn first_place(slots: &[u32], slot: u32) -> usize
    ensures { result ≡ first_place slots.now slot }
{
    // By hand: the proof of `position` with `unwrap_or` did not close.
    let mut i = 0;
    while i < slots.len() {
        if slots[i] == slot {
            return i;
        }
        i += 1;
    }
    i
}

// Each slot in the list's order, by the label at its first place, up to the first that is refused.
pub fn judge_handed(
    head: &[u8],
    tail: &[u8],
    blocks: u64,
    b: u64,
    slots: &[u32],
    labels: &[u8],
) -> Result<Dated, SetRefusal>
    requires { length labels.now ≡ 13 * length slots.now }
    ensures { judged_means result ≡ judge_from None (handed_from b blocks head.now tail.now slots.now labels.now slots.now) }
{
    let mut agreed = None;
    for &slot in slots {
        let at = 13 * first_place(slots, slot);
        let read = crate::read_label(head, tail, blocks, b, Slot(slot), &labels[at..at + 13]);
        match label::inner::step(agreed, read) {
            Err(reason) => {
                return Err(SetRefusal {
                    reason,
                    slot: Slot(slot),
                });
            }
            Ok(date) => {
                agreed = Some(date);
            }
        }
    }
    label::judging::at_end(agreed)
}
