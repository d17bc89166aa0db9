// The listing of a card by two lent windows: how many slots are used, the next used slot, what a slot holds, and the used slots by their order;
// the free ground, the slot map, and where a slot's bytes stand.
// Document 02, 10/13, and beyond it the free ground, the map and the place. Each call has the leaves of the call on an image, lent the head's front table.
#![tactic(auto)]

pub mod inner; // inner.rt: the tests of a used slot, and the plan of a listing

ghost use Rattle.units.specs.Meanings.{card_means};
ghost use Rattle.std.specs.Prelude.{◌≡◌, List, ℕ};
ghost use Rattle.listing.specs.Listing.{count_answer, next_answer, slot_read, nth_answer};
ghost use Rattle.listing.specs.Meanings.{card_next_means, slot_means, used_means};
ghost use Rattle.card.specs.Calls.{place_answer};
ghost use Rattle.slot_map.specs.Map.{made_means, made_answer};
ghost use Rattle.windows.specs.Windows.{window_answer};
ghost use Rattle.windows_listing.specs.Ground.{GroundEnds};

use partition::Partition;
use rows::Entry;
use slot_map::SlotMap;
use units::{BytePlace, Reason, Slot};

// How many slots are used: 1, 3, 8, 10, 32, and then the card check's numbers, as in each call below.
pub fn count_used<'a>(head: &'a [u8], tail: &'a [u8], blocks: u64, b: u64) -> Result<u32, Reason>
    ensures { card_means result ≡ window_answer b blocks head.now tail.now (count_answer b) }
{
    let found = windows::inner::check_in(head, tail, blocks, b);
    if found.number != 0 {
        return Err(found.reason());
    }
    let array = windows_reader::inner::array_of(head, tail, b, false);
    Ok(partition::inner::count_present(array, 0, 128))
}

// The first used slot after a slot, where slot 0 stands before the first, if there is one.
pub fn next_used<'a>(
    head: &'a [u8],
    tail: &'a [u8],
    blocks: u64,
    b: u64,
    after: Slot,
) -> Result<Option<Slot>, Reason>
    ensures { card_next_means result ≡ window_answer b blocks head.now tail.now (λ (xs : List ℕ). next_answer b xs after.0) }
{
    let found = windows::inner::check_in(head, tail, blocks, b);
    if found.number != 0 {
        return Err(found.reason());
    }
    let array = windows_reader::inner::array_of(head, tail, b, false);
    Ok(partition::inner::next_present(array, 0, 128, after))
}

// What a slot holds, if its entry is present: 18 (bad slot) after the check.
pub fn read_slot<'a>(
    head: &'a [u8],
    tail: &'a [u8],
    blocks: u64,
    b: u64,
    slot: Slot,
) -> Result<Option<Partition>, Reason>
    ensures { slot_means result ≡ window_answer b blocks head.now tail.now (λ (xs : List ℕ). slot_read b xs slot.0) }
{
    let found = windows::inner::slot_check_in(head, tail, blocks, b, slot);
    if found.number != 0 {
        return Err(found.reason());
    }
    let array = windows_reader::inner::array_of(head, tail, b, false);
    Ok(reader::inner::slot_in(array, slot))
}

// Used slot k with its record, counted from 0, ascending; none where k is not below the count.
pub fn nth_used<'a>(
    head: &'a [u8],
    tail: &'a [u8],
    blocks: u64,
    b: u64,
    k: u32,
) -> Result<Option<Entry>, Reason>
    ensures { used_means result ≡ window_answer b blocks head.now tail.now (λ (xs : List ℕ). nth_answer b xs k) }
{
    let found = windows::inner::check_in(head, tail, blocks, b);
    if found.number != 0 {
        return Err(found.reason());
    }
    let array = windows_reader::inner::array_of(head, tail, b, false);
    match listing::inner::nth_in(array, k) {
        None => Ok(None),
        Some(slot) => Ok(Some(Entry {
            slot,
            partition: inner::entry_in(array, slot),
        })),
    }
}

// All runs of free blocks, ascending, into the first places of the two rows; the places after the count stay: 15 last, if either row is shorter than the count.
pub fn free_runs<'a>(
    head: &'a [u8],
    tail: &'a [u8],
    blocks: u64,
    b: u64,
    starts: &mut [u64],
    lengths: &mut [u64],
) -> Result<u32, Reason>
    ensures { GroundEnds b blocks head.now tail.now starts.old lengths.old (card_means result) starts.new lengths.new }
{
    let found = windows::inner::check_in(head, tail, blocks, b);
    if found.number != 0 {
        return ground::inner::answer(found, 0);
    }
    let size = b as usize;
    let len = (blocks * b) as usize;
    let front = &head[size..size + (size + 16384)];
    ground::inner::runs_into(front, len, b, starts, lengths)
}

// The map of the used slots.
pub fn slot_map<'a>(head: &'a [u8], tail: &'a [u8], blocks: u64, b: u64) -> Result<SlotMap, Reason>
    ensures { made_means result ≡ window_answer b blocks head.now tail.now (made_answer b) }
{
    let found = windows::inner::check_in(head, tail, blocks, b);
    if found.number != 0 {
        return slot_map::inner::made(found, SlotMap { low: 0, high: 0 });
    }
    let size = b as usize;
    let front = &head[size..size + (size + 16384)];
    Ok(slot_map::inner::map_of(front, b))
}

// Where n bytes at a place of a slot's partition stand in the card: 18 no such slot, 23 unused, 24 past the partition's end, after the check.
pub fn payload_place<'a>(
    head: &'a [u8],
    tail: &'a [u8],
    blocks: u64,
    b: u64,
    slot: Slot,
    place: BytePlace,
    n: usize,
) -> Result<BytePlace, Reason>
    ensures { card_means result ≡ window_answer b blocks head.now tail.now (λ (xs : List ℕ). place_answer b xs slot.0 place.0 n) }
{
    let found = inner::used_check_in(head, tail, blocks, b, slot);
    if found.number != 0 {
        return Err(found.reason());
    }
    let size = b as usize;
    let span = card::payload::slot_span(&head[size..size + (size + 16384)], b, slot);
    card::payload::place_in(span, b, place, n, (blocks * b) as usize)
}
