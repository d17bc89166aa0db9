// Doors: the public calls on two windows once more, in one line each, under their own contracts word for word. Left out is windows_reader::list_part: what a call that lends a row promises is said once by rows::inner::meets.
// Nobody calls them. They are there to be changed: each edit under must-fail puts an impostor behind a door, and the door's contract must refuse it.
#![tactic(auto)]

ghost use Rattle.std.specs.Prelude.{◌≡◌, List, ℕ};
ghost use Rattle.units.specs.Meanings.{card_means, means};
ghost use Rattle.tables.specs.Check.{check_answer};
ghost use Rattle.card.specs.Calls.{place_answer};
ghost use Rattle.windows.specs.Windows.{WindowEnds, clear_in, lay_in, put_in, window_answer, window_outcome};
ghost use Rattle.listing.specs.Listing.{count_answer, next_answer, nth_answer, slot_read};
ghost use Rattle.listing.specs.Meanings.{card_next_means, slot_means, used_means};
ghost use Rattle.slot_map.specs.Map.{made_answer, made_means};
ghost use Rattle.windows_listing.specs.Ground.{GroundEnds};
ghost use Rattle.partition.specs.Meanings.{next_means, read_means};
ghost use Rattle.reader.specs.Reader.{reader_count, reader_next, reader_slot, side_answer};
ghost use Rattle.reader.specs.Meanings.{copy_means};
ghost use Rattle.windows_reader.specs.Parts.{good_from, good_part};
ghost use Rattle.staged.specs.Numbers.{start_repair};
ghost use Rattle.windows_staged.specs.Stages.{next_repair_windowed, next_windowed, start_clear_in, start_put_in};

use partition::Partition;
use reader::GoodCopy;
use rows::Entry;
use slot_map::SlotMap;
use staged::{Repair, Update};
use units::{BytePlace, Guid, Reason, Refusal, Slot};

pub fn check<'a>(head: &'a [u8], tail: &'a [u8], blocks: u64, b: u64) -> Result<(), Reason>
    ensures { card_means result ≡ window_answer b blocks head.now tail.now (check_answer b) }
{
    windows::check(head, tail, blocks, b)
}

pub fn lay(head: &mut [u8], tail: &mut [u8], blocks: u64, b: u64, guid: Guid) -> Result<(), Reason>
    ensures { WindowEnds (lay_in b blocks head.old tail.old guid) (card_means result) head.new tail.new }
{
    windows::lay(head, tail, blocks, b, guid)
}

pub fn put(
    head: &mut [u8],
    tail: &mut [u8],
    blocks: u64,
    b: u64,
    slot: Slot,
    p: Partition,
) -> Result<(), Reason>
    ensures { WindowEnds (put_in b blocks head.old tail.old slot.0 p) (card_means result) head.new tail.new }
{
    windows::put(head, tail, blocks, b, slot, p)
}

pub fn clear(
    head: &mut [u8],
    tail: &mut [u8],
    blocks: u64,
    b: u64,
    slot: Slot,
) -> Result<(), Reason>
    ensures { WindowEnds (clear_in b blocks head.old tail.old slot.0) (card_means result) head.new tail.new }
{
    windows::clear(head, tail, blocks, b, slot)
}

pub fn count_used<'a>(head: &'a [u8], tail: &'a [u8], blocks: u64, b: u64) -> Result<u32, Reason>
    ensures { card_means result ≡ window_answer b blocks head.now tail.now (count_answer b) }
{
    windows_listing::count_used(head, tail, blocks, b)
}

pub fn next_used<'a>(
    head: &'a [u8],
    tail: &'a [u8],
    blocks: u64,
    b: u64,
    after: Slot,
) -> Result<Option<Slot>, Reason>
    ensures { card_next_means result ≡ window_answer b blocks head.now tail.now (λ (xs : List ℕ). next_answer b xs after.0) }
{
    windows_listing::next_used(head, tail, blocks, b, after)
}

pub fn read_slot<'a>(
    head: &'a [u8],
    tail: &'a [u8],
    blocks: u64,
    b: u64,
    slot: Slot,
) -> Result<Option<Partition>, Reason>
    ensures { slot_means result ≡ window_answer b blocks head.now tail.now (λ (xs : List ℕ). slot_read b xs slot.0) }
{
    windows_listing::read_slot(head, tail, blocks, b, slot)
}

pub fn nth_used<'a>(
    head: &'a [u8],
    tail: &'a [u8],
    blocks: u64,
    b: u64,
    k: u32,
) -> Result<Option<Entry>, Reason>
    ensures { used_means result ≡ window_answer b blocks head.now tail.now (λ (xs : List ℕ). nth_answer b xs k) }
{
    windows_listing::nth_used(head, tail, blocks, b, k)
}

pub fn free_runs<'a>(
    head: &'a [u8],
    tail: &'a [u8],
    blocks: u64,
    b: u64,
    starts: &mut [u64],
    lengths: &mut [u64],
) -> Result<u32, Reason>
    ensures { GroundEnds b blocks head.now tail.now starts.old lengths.old (card_means result) starts.new lengths.new }
{
    windows_listing::free_runs(head, tail, blocks, b, starts, lengths)
}

pub fn slot_map<'a>(head: &'a [u8], tail: &'a [u8], blocks: u64, b: u64) -> Result<SlotMap, Reason>
    ensures { made_means result ≡ window_answer b blocks head.now tail.now (made_answer b) }
{
    windows_listing::slot_map(head, tail, blocks, b)
}

pub fn payload_place<'a>(
    head: &'a [u8],
    tail: &'a [u8],
    blocks: u64,
    b: u64,
    slot: Slot,
    place: BytePlace,
    n: usize,
) -> Result<BytePlace, Reason>
    ensures { card_means result ≡ window_answer b blocks head.now tail.now (λ (xs : List ℕ). place_answer b xs slot.0 place.0 n) }
{
    windows_listing::payload_place(head, tail, blocks, b, slot, place, n)
}

pub fn reader_good_copy<'a>(
    head: &'a [u8],
    tail: &'a [u8],
    blocks: u64,
    b: u64,
) -> Result<GoodCopy, Refusal>
    ensures { copy_means result ≡ window_answer b blocks head.now tail.now (side_answer b) }
{
    windows_reader::good_copy(head, tail, blocks, b)
}

pub fn reader_good_part<'a>(head: &'a [u8], tail: &'a [u8], blocks: u64, b: u64) -> &'a [u8]
    ensures result_value { result.now ≡ good_part b blocks head.now tail.now }
    ensures ref_ptr_value { result.ref_ptr ≡ good_from b blocks head.now tail.now head.entry.ref_ptr tail.entry.ref_ptr }
{
    windows_reader::good_part(head, tail, blocks, b)
}

pub fn reader_count_used<'a>(
    head: &'a [u8],
    tail: &'a [u8],
    blocks: u64,
    b: u64,
) -> Result<u32, Refusal>
    ensures { means result ≡ window_answer b blocks head.now tail.now (reader_count b) }
{
    windows_reader::count_used(head, tail, blocks, b)
}

pub fn reader_next_used<'a>(
    head: &'a [u8],
    tail: &'a [u8],
    blocks: u64,
    b: u64,
    after: Slot,
) -> Result<Option<Slot>, Refusal>
    ensures { next_means result ≡ window_answer b blocks head.now tail.now (λ (xs : List ℕ). reader_next b xs after.0) }
{
    windows_reader::next_used(head, tail, blocks, b, after)
}

pub fn reader_read_slot<'a>(
    head: &'a [u8],
    tail: &'a [u8],
    blocks: u64,
    b: u64,
    slot: Slot,
) -> Result<Option<Partition>, Refusal>
    ensures { read_means result ≡ window_answer b blocks head.now tail.now (λ (xs : List ℕ). reader_slot b xs slot.0) }
{
    windows_reader::read_slot(head, tail, blocks, b, slot)
}

pub fn start_put(
    head: &mut [u8],
    tail: &mut [u8],
    blocks: u64,
    b: u64,
    slot: Slot,
    p: Partition,
) -> Result<Update, Reason>
    ensures { WindowEnds (start_put_in b blocks head.old tail.old slot.0 p) (card_means result) head.new tail.new }
{
    windows_staged::start_put(head, tail, blocks, b, slot, p)
}

pub fn start_clear(
    head: &mut [u8],
    tail: &mut [u8],
    blocks: u64,
    b: u64,
    slot: Slot,
) -> Result<Update, Reason>
    ensures { WindowEnds (start_clear_in b blocks head.old tail.old slot.0) (card_means result) head.new tail.new }
{
    windows_staged::start_clear(head, tail, blocks, b, slot)
}

pub fn next_stage(
    head: &mut [u8],
    tail: &mut [u8],
    blocks: u64,
    b: u64,
    stage: u32,
    state: Update,
) -> Result<Update, Reason>
    ensures { WindowEnds (next_windowed b blocks head.old tail.old stage state) (card_means result) head.new tail.new }
{
    windows_staged::next_stage(head, tail, blocks, b, stage, state)
}

pub fn start_repair(head: &mut [u8], tail: &mut [u8], blocks: u64, b: u64) -> Result<Repair, Reason>
    ensures { WindowEnds (window_outcome b blocks head.old tail.old (λ (xs : List ℕ). start_repair b xs)) (card_means result) head.new tail.new }
{
    windows_staged::start_repair(head, tail, blocks, b)
}

pub fn next_repair(
    head: &mut [u8],
    tail: &mut [u8],
    blocks: u64,
    b: u64,
    stage: u32,
    state: Repair,
) -> Result<Repair, Reason>
    ensures { WindowEnds (next_repair_windowed b blocks head.old tail.old stage state) (card_means result) head.new tail.new }
{
    windows_staged::next_repair(head, tail, blocks, b, stage, state)
}
