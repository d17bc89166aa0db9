// The slot map for C.
ghost use Rattle.std.specs.Prelude.{◌≡◌, true, false};
ghost use Rattle.units.specs.Answer.{Ends};
ghost use Rattle.card.specs.Calls.{put_outcome, clear_outcome};
ghost use Rattle.history.specs.History.{taken};
ghost use Rattle.slot_map.specs.Bits.{map_of, count_true};
ghost use Rattle.slot_map.specs.Map.{free_answer, made_means, made_answer, marked};
ghost use Rattle.answers_c.specs.Crossing.{outcome_to_c};
ghost use Rattle.card_c.specs.CardExports.{free_to_c, answer_to_c, MadeToC, carried_to_c};

use crate::answers::CardAnswer;
use answers_c::GptNext;
use partition::Partition;
use slot_map::SlotMap;
use units::{Reason, Slot};

// Beside a refusal the map is zero.
#[repr(C)]
#[derive(Clone, Copy, Debug, PartialEq, Eq)]
pub struct CardMapMade {
    pub number: u32,
    pub place: u32,
    pub differs: u32,
    pub map: SlotMap,
}

// What the call answers, and the map after it: beside a refusal it is the one that came.
#[repr(C)]
#[derive(Clone, Copy, Debug, PartialEq, Eq)]
pub struct CardCarried {
    pub answer: CardAnswer,
    pub map: SlotMap,
}

impl From<Result<SlotMap, Reason>> for CardMapMade {
    ghost from_gives = { λ r a. MadeToC (made_means r) a };

    #[tactic(auto, unfolding(crate::specs::CardExports::crossed_at, crate::specs::CardExports::map_bits))]
    fn from(r: Result<SlotMap, Reason>) -> CardMapMade {
        match r {
            Ok(map) => CardMapMade {
                number: 0,
                place: 0,
                differs: 0,
                map,
            },
            Err(w) => {
                let k = CardAnswer::from(w);
                CardMapMade {
                    number: k.number,
                    place: k.place,
                    differs: k.differs,
                    map: SlotMap { low: 0, high: 0 },
                }
            }
        }
    }
}

// What a call answers that carries a map, and the map that its caller then has.
#[tactic(auto, unfolding(crate::specs::CardExports::crossed_at))]
fn carried_to_c(r: Result<SlotMap, Reason>, map: SlotMap) -> CardCarried
    ensures { result ≡ carried_to_c map r }
{
    match r {
        Ok(map) => CardCarried {
            answer: CardAnswer {
                number: 0,
                slot: 0,
                place: 0,
                differs: 0,
            },
            map,
        },
        Err(w) => CardCarried {
            answer: w.into(),
            map,
        },
    }
}

// The map of a card: the check's numbers and places.
#[unsafe(no_mangle)]
pub extern "C" fn card_map_make(img: &[u8], b: u64) -> CardMapMade
    ensures { MadeToC (made_answer b img.now) result }
{
    slot_map::slot_map(img, b).into()
}

// card_put, with the slot's bit set where it is accepted.
#[unsafe(no_mangle)]
pub extern "C" fn card_map_put(
    img: &mut [u8],
    b: u64,
    slot: u32,
    partition: Partition,
    map: SlotMap,
) -> CardCarried
    ensures ends { Ends (outcome_to_c answer_to_c (put_outcome b img.old slot partition)) result.answer img.new }
    ensures map_value { map_of result.map ≡ marked (taken (put_outcome b img.old slot partition).answer) slot true (map_of map) }
{
    carried_to_c(slot_map::put(img, b, Slot(slot), partition, map), map)
}

// card_clear, with the slot's bit cleared where it is accepted.
#[unsafe(no_mangle)]
pub extern "C" fn card_map_clear(img: &mut [u8], b: u64, slot: u32, map: SlotMap) -> CardCarried
    ensures ends { Ends (outcome_to_c answer_to_c (clear_outcome b img.old slot)) result.answer img.new }
    ensures map_value { map_of result.map ≡ marked (taken (clear_outcome b img.old slot).answer) slot false (map_of map) }
{
    carried_to_c(slot_map::clear(img, b, Slot(slot), map), map)
}

// The lowest free slot of a map: 33 where all 128 are used.
#[unsafe(no_mangle)]
pub extern "C" fn card_map_lowest_free(map: SlotMap) -> GptNext
    ensures { result ≡ free_to_c (free_answer (map_of map)) }
{
    map.lowest_free().into()
}

// How many slots are used.
#[unsafe(no_mangle)]
pub extern "C" fn card_map_used(map: SlotMap) -> u32
    ensures { result ≡ count_true (map_of map) }
{
    map.used()
}
