// Leaves for our own crates: each `requires` is what its caller has tested. Room for two tables is all that they need to stay inside the image; that the card
// passes the check is for the caller to know. No public calls.
ghost use Rattle.units.specs.Meanings.{card_means};
ghost use Rattle.std.specs.Prelude.{◌≡◌, false, ◌+◌, ◌*◌, ◌-◌, ◌≤◌, length, take, drop};
ghost use Rattle.partition.specs.Format.{entry_at};
ghost use Rattle.partition.specs.Array.{entry_place, present, present_from};
ghost use Rattle.partition.specs.Meanings.{found_of, slots_of};
ghost use Rattle.rows.specs.Plans.{Made, planned, plan_count};
ghost use Rattle.tables.specs.Lens.{tables};
ghost use Rattle.tables.specs.Check.{room_check, bad_slot};
ghost use Rattle.listing.specs.Listing.{present_slots};
ghost use Rattle.listing.specs.LentRow.{card_entries};

use partition::Partition;
use rows::inner::Plan;
use units::{BytePlace, Lba, Reason, Slot};

// Where the front array stands in an image, and in whatever begins like one.
pub fn front_array(b: u64) -> BytePlace
    requires { b ≤ 4096 }
    ensures { result.0 ≡ b + b }
{
    units::inner::place(Lba(2), b)
}

// Where a slot's entry stands there.
fn slot_place(b: u64, slot: Slot) -> BytePlace
    requires { (b ≤ 4096) × (bad_slot slot.0 ≡ false) }
    ensures { result.0 ≡ b + b + 128 * (slot.0 - 1) }
{
    let k = units::inner::array_place(slot);
    partition::inner::entry_place(front_array(b), k as usize)
}

// How many slots are used.
pub fn used_count(img: &[u8], b: u64) -> u32
    requires { (room_check b (length img.now)).number ≡ 0 }
    ensures { result ≡ length (present_slots (tables b img.now)) }
{
    let array = front_array(b);
    partition::inner::count_present(img, array.0, 128)
}

// The first used slot after a slot, if there is one.
pub fn used_after(img: &[u8], b: u64, after: Slot) -> Option<Slot>
    requires { (room_check b (length img.now)).number ≡ 0 }
    ensures { slots_of result ≡ take 1 (present_from (tables b img.now).front.array 0 after.0 (128 - after.0)) }
{
    let array = front_array(b);
    partition::inner::next_present(img, array.0, 128, after)
}

// Present slot k of an array, counted from 0, if k is below the count.
pub fn nth_in(array: &[u8], k: u32) -> Option<Slot>
    requires { length array.now ≡ 16384 }
    ensures { slots_of result ≡ take 1 (drop k (present_from array.now 0 0 128)) }
{
    let mut after = Slot(0);
    for _i in 0..k {
        after = partition::inner::next_present(array, 0, 128, after)?;
    }
    partition::inner::next_present(array, 0, 128, after)
}

// Used slot k, counted from 0, if k is below the count.
pub fn nth_slot(img: &[u8], b: u64, k: u32) -> Option<Slot>
    requires { (room_check b (length img.now)).number ≡ 0 }
    ensures { slots_of result ≡ take 1 (drop k (present_slots (tables b img.now))) }
{
    let array = front_array(b);
    let at = array.0;
    nth_in(&img[at..at + 16384], k)
}

// What a slot holds: its record, if its entry is present.
pub fn slot_found(img: &[u8], b: u64, slot: Slot) -> Option<Partition>
    requires { ((room_check b (length img.now)).number ≡ 0) × (bad_slot slot.0 ≡ false) }
    ensures { found_of result ≡ record { present = present (tables b img.now).front.array 0 (slot.0 - 1); partition = entry_at (tables b img.now).front.array (entry_place 0 (slot.0 - 1)) } }
{
    let at = slot_place(b, slot);
    partition::inner::entry_if_present(img, at.0)
}

// A slot's record.
pub fn slot_entry(img: &[u8], b: u64, slot: Slot) -> Partition
    requires { ((room_check b (length img.now)).number ≡ 0) × (bad_slot slot.0 ≡ false) }
    ensures { result ≡ entry_at (tables b img.now).front.array (entry_place 0 (slot.0 - 1)) }
{
    let at = slot_place(b, slot);
    partition::inner::entry_at(img, at.0)
}

// The plan of a card's listing into a lent row, by value: every test but that of the row's length. The card check's numbers.
pub fn plan_of(img: &[u8], b: u64) -> Plan
    ensures { Made img.now result × (planned img.now result ≡ card_entries b img.now) }
{
    match checking::check(img, b) {
        Err(w) => Plan::refused(w),
        Ok(()) => Plan::listing(img, front_array(b), 128),
    }
}

// The count of a plan that was carried out, or its refusal with the place.
pub fn count_by(p: Plan) -> Result<u32, Reason>
    ensures { card_means result ≡ plan_count p }
{
    p.verdict?;
    Ok(p.present)
}
