// Leaves for our own crates: entries of any size from 128 bytes on, of which those count whose type is not nil. Each `requires` is what its caller has tested.
ghost use Rattle.std.specs.Prelude.{◌≡◌, true, not, ◌+◌, ◌*◌, ◌^◌, ◌≤◌, ◌<◌, ◌-◌, length, take};
ghost use Rattle.units.specs.Places.{inside_or_empty};
ghost use Rattle.partition.specs.Format.{nil_type_at};
ghost use Rattle.partition.specs.Meanings.{slots_of};
ghost use Rattle.rows.specs.Slots.{slots_from, place_each, typed_each};

use units::{BytePlace, Slot};

// Where the entry at array place k stands, of entries of `each` bytes from a place on.
pub fn entry_place(at: BytePlace, each: u32, k: u32) -> BytePlace
    requires { at.0 + k * each < 2 ^ 64 }
    ensures { result.0 ≡ place_each each at.0 k }
{
    BytePlace(at.0 + (k as usize) * (each as usize))
}

// Whether the entry at a place is used: its type is not nil.
pub fn is_used(s: &[u8], at: BytePlace) -> bool
    requires { at.0 + 128 ≤ length s.now }
    ensures { result ≡ not (nil_type_at s.now at.0) }
{
    !units::inner::all_zero(s, at.0, 16)
}

// How many of the count entries from a place on are used.
pub fn count_used(s: &[u8], at: BytePlace, each: u32, count: u32) -> u32
    requires { (128 ≤ each) × (inside_or_empty (length s.now) at.0 (count * each) ≡ true) }
    ensures { result ≡ length (slots_from (typed_each s.now each at.0) 0 count) }
{
    let mut n = 0;
    for k in 0..count {
        if is_used(s, entry_place(at, each, k)) {
            n += 1;
        }
    }
    n
}

// The first used slot after a slot, among the count entries from a place on.
pub fn next_used(s: &[u8], at: BytePlace, each: u32, count: u32, after: Slot) -> Option<Slot>
    requires { (128 ≤ each) × (inside_or_empty (length s.now) at.0 (count * each) ≡ true) }
    ensures { slots_of result ≡ take 1 (slots_from (typed_each s.now each at.0) after.0 (count - after.0)) }
{
    for k in after.0..count {
        if is_used(s, entry_place(at, each, k)) {
            return Some(units::inner::slot_at(k));
        }
    }
    None
}
