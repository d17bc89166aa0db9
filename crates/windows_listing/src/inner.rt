// Leaves for our own crates: each `requires` is what its caller has tested. No public calls.
// `head` and `tail` are two windows of a card of `blocks` blocks, as in `windows::inner`.
ghost use Rattle.std.specs.Prelude.{◌≡◌, false, ℕ, ◌-◌, length};
ghost use Rattle.partition.specs.Format.{entry_at};
ghost use Rattle.partition.specs.Array.{entry_place};
ghost use Rattle.rows.specs.Plans.{Made, planned};
ghost use Rattle.tables.specs.Lens.{Tables};
ghost use Rattle.tables.specs.Check.{bad_slot};
ghost use Rattle.listing.specs.LentRow.{card_entries};
ghost use Rattle.card.specs.Calls.{used_check};
ghost use Rattle.windows.specs.Windows.{window_answer, window_why};

use partition::Partition;
use rows::inner::Plan;
use units::why::Why;
use units::{BytePlace, Slot, why};

// 18 no such slot, 23 unused, after the check.
pub fn used_check_in(head: &[u8], tail: &[u8], blocks: u64, b: u64, slot: Slot) -> Why
    ensures { result ≡ window_why b blocks head.now tail.now (λ (n : ℕ) (f : Tables). used_check b n f slot.0) }
{
    let found = windows::inner::slot_check_in(head, tail, blocks, b, slot);
    if found.number != 0 {
        return found;
    }
    let size = b as usize;
    if card::payload::slot_unused(&head[size..size + (size + 16384)], b, slot) {
        return why::EMPTY_SLOT;
    }
    why::FINE
}

// The record in a slot's entry of an array.
pub fn entry_in(array: &[u8], slot: Slot) -> Partition
    requires { (length array.now ≡ 16384) × (bad_slot slot.0 ≡ false) }
    ensures { result ≡ entry_at array.now (entry_place 0 (slot.0 - 1)) }
{
    let k = units::inner::array_place(slot);
    let at = partition::inner::entry_place(BytePlace(0), k as usize);
    partition::inner::entry_at(array, at.0)
}

// The plan of the listing, over the head: every test but that of the row's length.
pub fn plan_in<'a>(head: &'a [u8], tail: &'a [u8], blocks: u64, b: u64) -> Plan
    ensures { Made head.now result × (planned head.now result ≡ window_answer b blocks head.now tail.now (card_entries b)) }
{
    let found = windows::inner::check_in(head, tail, blocks, b);
    if found.number != 0 {
        return Plan::refused(found.reason());
    }
    Plan::listing(head, listing::inner::front_array(b), 128)
}
