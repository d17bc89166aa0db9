// A slot map beside a card's table: 128 bits, one for a used slot, made from a checked card and carried through put and clear by value.
// Document 02, 11/13. What the map of a card is, and what a call makes of one, is in specs/Map.
#![tactic(auto)]

pub mod inner; // inner.rt: the words, one bit, and the making from a front table

ghost use Rattle.std.specs.Prelude.{◌≡◌, true, false};
ghost use Rattle.units.specs.Answer.{Ends};
ghost use Rattle.units.specs.Meanings.{card_means, means};
ghost use Rattle.card.specs.Calls.{put_outcome, clear_outcome};
ghost use Rattle.history.specs.History.{taken};
ghost use Rattle.slot_map.specs.Bits.{map_of, count_true};
ghost use Rattle.slot_map.specs.Map.{free_answer, made_means, made_answer, marked, verdict, kept};

use partition::Partition;
use units::{Reason, Refusal, Slot};

// A bit for each slot, 1 where it is used: slots 1 to 64 in the low word, least bit first, slots 65 to 128 in the high one.
#[repr(C)]
#[derive(Clone, Copy, Debug, PartialEq, Eq)]
pub struct SlotMap {
    pub low: u64,
    pub high: u64,
}

impl SlotMap {
    // The lowest free slot: 33 (table full) where all 128 are used.
    pub fn lowest_free(self) -> Result<Slot, Refusal>
        ensures { means result ≡ free_answer (map_of self) }
    {
        let a = inner::word_free(self.low);
        if a < 64 {
            return Ok(units::inner::slot_at(a));
        }
        let b = inner::word_free(self.high);
        if b < 64 {
            return Ok(units::inner::slot_at(64 + b));
        }
        Err(Refusal::TableFull)
    }

    // How many slots are used.
    pub fn used(self) -> u32
        ensures { result ≡ count_true (map_of self) }
    {
        inner::word_used(self.low) + inner::word_used(self.high)
    }
}

// The map of a card: the card check's numbers.
pub fn slot_map(img: &[u8], b: u64) -> Result<SlotMap, Reason>
    ensures { made_means result ≡ made_answer b img.now }
{
    let found = checking::inner::check_with(img, b);
    if found.number != 0 {
        return inner::made(found, SlotMap { low: 0, high: 0 });
    }
    let size = b as usize;
    Ok(inner::map_of(&img[size..size + (size + 16384)], b))
}

// The card's put, and the map with the slot's bit set; a refused one leaves the caller its own map.
pub fn put(
    img: &mut [u8],
    b: u64,
    slot: Slot,
    p: Partition,
    map: SlotMap,
) -> Result<SlotMap, Reason>
    ensures ends { Ends (put_outcome b img.old slot.0 p) (card_means (verdict result)) img.new }
    ensures map_value { map_of (kept map result) ≡ marked (taken (put_outcome b img.old slot.0 p).answer) slot.0 true (map_of map) }
{
    card::put(img, b, slot, p)?;
    Ok(inner::with_bit(map, units::inner::array_place(slot), true))
}

// The card's clear, and the map with the slot's bit cleared, likewise.
pub fn clear(img: &mut [u8], b: u64, slot: Slot, map: SlotMap) -> Result<SlotMap, Reason>
    ensures ends { Ends (clear_outcome b img.old slot.0) (card_means (verdict result)) img.new }
    ensures map_value { map_of (kept map result) ≡ marked (taken (clear_outcome b img.old slot.0).answer) slot.0 false (map_of map) }
{
    card::clear(img, b, slot)?;
    Ok(inner::with_bit(map, units::inner::array_place(slot), false))
}
