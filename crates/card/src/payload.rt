// What a payload write tests, and where it stores. A slot's blocks are read once, and every later step has them by value.
ghost use Rattle.units.specs.Meanings.{card_means};
ghost use Rattle.std.specs.Prelude.{◌≡◌, false, not, ◌+◌, ◌*◌, ◌-◌, ◌≤◌, ltb, length};
ghost use Rattle.units.proofs.Chains.{found};
ghost use Rattle.units.specs.Answer.{accepted, refuse, pick};
ghost use Rattle.tables.specs.Lens.{Front, copy_in, tables};
ghost use Rattle.tables.specs.Entries.{entry, used, first_of, last_of};
ghost use Rattle.tables.specs.Check.{bad_slot};
ghost use Rattle.card.specs.Calls.{used_check, place_answer, front_entry};

use units::why::Why;
use units::{BytePlace, Lba, Place, Reason, Refusal, Slot, why};

// 24, which names no place.
const PAST_END: Reason = Reason {
    what: Refusal::PastPartition,
    place: Place::Nowhere,
};

// The blocks of a partition, from the first to the last.
#[derive(Clone, Copy, Debug, PartialEq, Eq)]
pub struct Span {
    pub first: Lba,
    pub last: Lba,
}

// Whether a slot of the front table is unused.
pub fn slot_unused(front: &[u8], b: u64, slot: Slot) -> bool
    requires { (b ≤ 4096) × (bad_slot slot.0 ≡ false) × (length front.now ≡ b + 16384) }
    ensures { result ≡ not (used (entry (copy_in b Front front.now).array (slot.0 - 1))) }
{
    partition::inner::nil_type_at(front, tables::inner::slot_in(b, false, slot))
}

// The blocks of a slot of the front table.
pub fn slot_span(front: &[u8], b: u64, slot: Slot) -> Span
    requires { (b ≤ 4096) × (bad_slot slot.0 ≡ false) × (length front.now ≡ b + 16384) }
    ensures { (result.first.0 ≡ first_of (front_entry b front.now slot.0)) × (result.last.0 ≡ last_of (front_entry b front.now slot.0)) }
{
    let at = tables::inner::slot_in(b, false, slot);
    Span {
        first: partition::inner::first_at(front, at),
        last: partition::inner::last_at(front, at),
    }
}

// 18 no such slot, 23 unused, after the check.
pub fn used_check(img: &[u8], b: u64, slot: Slot) -> Why
    ensures { result ≡ used_check b (length img.now) (tables b img.now) slot.0 }
{
    let found = checking::inner::slot_check(img, b, slot);
    if found.number != 0 {
        return found;
    }
    let size = b as usize;
    if slot_unused(&img[size..size + (size + 16384)], b, slot) {
        return why::EMPTY_SLOT;
    }
    why::FINE
}

// Where n bytes at a place of a partition stand, in an image of len bytes: 24 if they pass the partition's end. The sum of place and n is never taken, so it cannot
// wrap. The last test never refuses on a checked card; it keeps the store inside the image should another writer have changed the table since.
pub fn place_in(
    span: Span,
    b: u64,
    place: BytePlace,
    n: usize,
    len: usize,
) -> Result<BytePlace, Reason>
    requires { (1 ≤ b) × (span.first.0 ≤ span.last.0) × ((span.last.0 + 1) * b ≤ len) }
    ensures { card_means result ≡ pick (ltb ((span.last.0 + 1 - span.first.0) * b) (place.0 + n)) (refuse 24) (accepted (record { 0 = span.first.0 * b + place.0 })) }
{
    let first = span.first;
    let last = span.last;
    let start = units::inner::place(first, b);
    let end = units::inner::place(Lba(last.0 + 1), b);
    let room = end.0 - start.0;
    if room < n {
        return Err(PAST_END);
    }
    if room - n < place.0 {
        return Err(PAST_END);
    }
    let at = BytePlace(start.0 + place.0);
    if !units::is_inside(len, at, n) {
        return Err(PAST_END);
    }
    Ok(at)
}

// Where a payload write of n bytes at a place of a slot's partition stores them: 18, 23, 24 after the check.
pub fn payload_place(
    img: &[u8],
    b: u64,
    slot: Slot,
    place: BytePlace,
    n: usize,
) -> Result<BytePlace, Reason>
    ensures { card_means result ≡ place_answer b img.now slot.0 place.0 n }
{
    let found = used_check(img, b, slot);
    if found.number != 0 {
        return Err(found.reason());
    }
    let size = b as usize;
    let span = slot_span(&img[size..size + (size + 16384)], b, slot);
    place_in(span, b, place, n, img.len())
}
