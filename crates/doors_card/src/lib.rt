// Doors: the public calls of card, ground and slot_map once more, in one line each, under their own contracts word for word.
// Nobody calls them. They are there to be changed: each edit under must-fail puts an impostor behind a door, and the door's contract must refuse it.
#![tactic(auto)]

ghost use Rattle.std.specs.Prelude.{◌≡◌, true, false};
ghost use Rattle.units.specs.Answer.{Ends};
ghost use Rattle.units.specs.Meanings.{card_means, means};
ghost use Rattle.tables.specs.Check.{check_answer};
ghost use Rattle.listing.specs.Listing.{count_answer, next_answer, slot_read, nth_answer};
ghost use Rattle.listing.specs.Meanings.{card_next_means, slot_means, used_means};
ghost use Rattle.ground.specs.Answers.{RowsEnd, ground_outcome};
ghost use Rattle.card.specs.Calls.{lay_outcome, put_outcome, clear_outcome, payload_outcome};
ghost use Rattle.history.specs.History.{taken};
ghost use Rattle.slot_map.specs.Bits.{map_of, count_true};
ghost use Rattle.slot_map.specs.Map.{free_answer, made_means, made_answer, marked, verdict, kept};

use partition::Partition;
use rows::Entry;
use slot_map::SlotMap;
use units::why::Why;
use units::{BytePlace, Guid, Place, Reason, Refusal, Slot};

pub fn lay(img: &mut [u8], b: u64, guid: Guid) -> Result<(), Reason>
    ensures { Ends (lay_outcome b img.old guid) (card_means result) img.new }
{
    card::lay(img, b, guid)
}

pub fn check(img: &[u8], b: u64) -> Result<(), Reason>
    ensures { card_means result ≡ check_answer b img.now }
{
    card::check(img, b)
}

pub fn put(img: &mut [u8], b: u64, slot: Slot, p: Partition) -> Result<(), Reason>
    ensures { Ends (put_outcome b img.old slot.0 p) (card_means result) img.new }
{
    card::put(img, b, slot, p)
}

pub fn clear(img: &mut [u8], b: u64, slot: Slot) -> Result<(), Reason>
    ensures { Ends (clear_outcome b img.old slot.0) (card_means result) img.new }
{
    card::clear(img, b, slot)
}

pub fn write_payload(
    img: &mut [u8],
    b: u64,
    slot: Slot,
    place: BytePlace,
    bytes: &[u8],
) -> Result<usize, Reason>
    ensures { Ends (payload_outcome b img.old slot.0 place.0 bytes.now) (card_means result) img.new }
{
    card::write_payload(img, b, slot, place, bytes)
}

pub fn count_used(img: &[u8], b: u64) -> Result<u32, Reason>
    ensures { card_means result ≡ count_answer b img.now }
{
    card::count_used(img, b)
}

pub fn next_used(img: &[u8], b: u64, after: Slot) -> Result<Option<Slot>, Reason>
    ensures { card_next_means result ≡ next_answer b img.now after.0 }
{
    card::next_used(img, b, after)
}

pub fn nth_used(img: &[u8], b: u64, k: u32) -> Result<Option<Entry>, Reason>
    ensures { used_means result ≡ nth_answer b img.now k }
{
    card::nth_used(img, b, k)
}

pub fn read_slot(img: &[u8], b: u64, slot: Slot) -> Result<Option<Partition>, Reason>
    ensures { slot_means result ≡ slot_read b img.now slot.0 }
{
    card::read_slot(img, b, slot)
}

pub fn free_runs(img: &[u8], b: u64, starts: &mut [u64], lengths: &mut [u64]) -> Result<u32, Reason>
    ensures { RowsEnd (ground_outcome b img.now starts.old lengths.old) (card_means result) starts.new lengths.new }
{
    ground::free_runs(img, b, starts, lengths)
}

pub fn slot_map(img: &[u8], b: u64) -> Result<SlotMap, Reason>
    ensures { made_means result ≡ made_answer b img.now }
{
    slot_map::slot_map(img, b)
}

pub fn map_put(
    img: &mut [u8],
    b: u64,
    slot: Slot,
    p: Partition,
    map: SlotMap,
) -> Result<SlotMap, Reason>
    ensures ends { Ends (put_outcome b img.old slot.0 p) (card_means (verdict result)) img.new }
    ensures map_value { map_of (kept map result) ≡ marked (taken (put_outcome b img.old slot.0 p).answer) slot.0 true (map_of map) }
{
    slot_map::put(img, b, slot, p, map)
}

pub fn map_clear(img: &mut [u8], b: u64, slot: Slot, map: SlotMap) -> Result<SlotMap, Reason>
    ensures ends { Ends (clear_outcome b img.old slot.0) (card_means (verdict result)) img.new }
    ensures map_value { map_of (kept map result) ≡ marked (taken (clear_outcome b img.old slot.0).answer) slot.0 false (map_of map) }
{
    slot_map::clear(img, b, slot, map)
}

pub fn lowest_free(map: SlotMap) -> Result<Slot, Refusal>
    ensures { means result ≡ free_answer (map_of map) }
{
    map.lowest_free()
}

pub fn map_used(map: SlotMap) -> u32
    ensures { result ≡ count_true (map_of map) }
{
    map.used()
}
