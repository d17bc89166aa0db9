// What comes back to C from the card calls: document 01's number first, 0 for accepted, then the values; beside a refusal each value is zero. What each struct holds is in specs/CardExports.
ghost use Rattle.std.specs.Prelude.{◌≡◌};
ghost use Rattle.units.specs.Refusals.{slot_in, why_at};
ghost use Rattle.units.specs.Meanings.{card_means};
ghost use Rattle.listing.specs.Meanings.{card_next_means, slot_means, used_means};
ghost use Rattle.card_c.specs.CardExports.{place_number, differs_in, why_to_c, answer_to_c, card_stored_to_c, spot_to_c, card_count_to_c, card_next_to_c, card_held_to_c, used_to_c};

use partition::Partition;
use rows::Entry;
use units::{BytePlace, Place, Reason, Refusal, Slot};

// The slot is the one that 22 and 25 carry, else 0. The place is 1 for the front table, 2 for the back one, 3 for the disk GUIDs and 4 for a slot, which is then the one that differs; else 0.
#[repr(C)]
#[derive(Clone, Copy, Debug, PartialEq, Eq)]
pub struct CardAnswer {
    pub number: u32,
    pub slot: u32,
    pub place: u32,
    pub differs: u32,
}

// How many bytes a card call stored.
#[repr(C)]
#[derive(Clone, Copy, Debug, PartialEq, Eq)]
pub struct CardStored {
    pub number: u32,
    pub place: u32,
    pub differs: u32,
    pub bytes: u64,
}

// Where a slot's bytes stand in a card.
#[repr(C)]
#[derive(Clone, Copy, Debug, PartialEq, Eq)]
pub struct CardSpot {
    pub number: u32,
    pub place: u32,
    pub differs: u32,
    pub at: u64,
}

#[repr(C)]
#[derive(Clone, Copy, Debug, PartialEq, Eq)]
pub struct CardCount {
    pub number: u32,
    pub count: u32,
    pub place: u32,
    pub differs: u32,
}

// Slot 0: no more.
#[repr(C)]
#[derive(Clone, Copy, Debug, PartialEq, Eq)]
pub struct CardNext {
    pub number: u32,
    pub slot: u32,
    pub place: u32,
    pub differs: u32,
}

// Whether a slot of a card is present, and its record.
#[repr(C)]
#[derive(Clone, Copy, Debug, PartialEq, Eq)]
pub struct CardSlotRead {
    pub number: u32,
    pub present: bool,
    pub place: u32,
    pub differs: u32,
    pub partition: Partition,
}

// Whether there is such a used slot, the slot, and its record.
#[repr(C)]
#[derive(Clone, Copy, Debug, PartialEq, Eq)]
pub struct CardUsedRead {
    pub number: u32,
    pub found: bool,
    pub slot: u32,
    pub place: u32,
    pub differs: u32,
    pub partition: Partition,
}

// The slot that a refusal carries.
fn slot_in(w: Refusal) -> u32
    ensures { result ≡ slot_in w }
{
    match w {
        Refusal::Overlap(s) => s.0,
        Refusal::TwinGuid(s) => s.0,
        _ => 0,
    }
}

// The number of a place.
fn place_number(p: Place) -> u32
    ensures { result ≡ place_number p }
{
    match p {
        Place::Nowhere => 0,
        Place::Front => 1,
        Place::Back => 2,
        Place::DiskGuid => 3,
        Place::InSlot(_s) => 4,
    }
}

// The slot that differs.
fn differs_in(p: Place) -> u32
    ensures { result ≡ differs_in p }
{
    match p {
        Place::Nowhere => 0,
        Place::Front => 0,
        Place::Back => 0,
        Place::DiskGuid => 0,
        Place::InSlot(s) => s.0,
    }
}

// Why a card call refuses. The other answers take their parts from it.
impl From<Reason> for CardAnswer {
    ghost from_gives = { λ r a. a ≡ why_to_c (why_at r) };

    fn from(r: Reason) -> CardAnswer {
        CardAnswer {
            number: r.what.number(),
            slot: slot_in(r.what),
            place: place_number(r.place),
            differs: differs_in(r.place),
        }
    }
}

impl From<Result<(), Reason>> for CardAnswer {
    ghost from_gives = { λ r a. a ≡ answer_to_c (card_means r) };

    #[tactic(auto, unfolding(crate::specs::CardExports::crossed_at))]
    fn from(r: Result<(), Reason>) -> CardAnswer {
        match r {
            Ok(()) => CardAnswer {
                number: 0,
                slot: 0,
                place: 0,
                differs: 0,
            },
            Err(w) => w.into(),
        }
    }
}

impl From<Result<usize, Reason>> for CardStored {
    ghost from_gives = { λ r a. a ≡ card_stored_to_c (card_means r) };

    #[tactic(auto, unfolding(crate::specs::CardExports::crossed_at))]
    fn from(r: Result<usize, Reason>) -> CardStored {
        match r {
            Ok(n) => CardStored {
                number: 0,
                place: 0,
                differs: 0,
                bytes: n as u64,
            },
            Err(w) => {
                let k = CardAnswer::from(w);
                CardStored {
                    number: k.number,
                    place: k.place,
                    differs: k.differs,
                    bytes: 0,
                }
            }
        }
    }
}

impl From<Result<BytePlace, Reason>> for CardSpot {
    ghost from_gives = { λ r a. a ≡ spot_to_c (card_means r) };

    #[tactic(auto, unfolding(crate::specs::CardExports::crossed_at))]
    fn from(r: Result<BytePlace, Reason>) -> CardSpot {
        match r {
            Ok(p) => CardSpot {
                number: 0,
                place: 0,
                differs: 0,
                at: p.0 as u64,
            },
            Err(w) => {
                let k = CardAnswer::from(w);
                CardSpot {
                    number: k.number,
                    place: k.place,
                    differs: k.differs,
                    at: 0,
                }
            }
        }
    }
}

impl From<Result<u32, Reason>> for CardCount {
    ghost from_gives = { λ r a. a ≡ card_count_to_c (card_means r) };

    #[tactic(auto, unfolding(crate::specs::CardExports::crossed_at))]
    fn from(r: Result<u32, Reason>) -> CardCount {
        match r {
            Ok(count) => CardCount {
                number: 0,
                count,
                place: 0,
                differs: 0,
            },
            Err(w) => {
                let k = CardAnswer::from(w);
                CardCount {
                    number: k.number,
                    count: 0,
                    place: k.place,
                    differs: k.differs,
                }
            }
        }
    }
}

impl From<Result<Option<Slot>, Reason>> for CardNext {
    ghost from_gives = { λ r a. a ≡ card_next_to_c (card_next_means r) };

    #[tactic(auto, unfolding(crate::specs::CardExports::crossed_at))]
    fn from(r: Result<Option<Slot>, Reason>) -> CardNext {
        match r {
            Ok(Some(s)) => CardNext {
                number: 0,
                slot: s.0,
                place: 0,
                differs: 0,
            },
            Ok(None) => CardNext {
                number: 0,
                slot: 0,
                place: 0,
                differs: 0,
            },
            Err(w) => {
                let k = CardAnswer::from(w);
                CardNext {
                    number: k.number,
                    slot: 0,
                    place: k.place,
                    differs: k.differs,
                }
            }
        }
    }
}

impl From<Result<Option<Partition>, Reason>> for CardSlotRead {
    ghost from_gives = { λ r a. a ≡ card_held_to_c (slot_means r) };

    #[tactic(auto, unfolding(crate::specs::CardExports::crossed_at))]
    fn from(r: Result<Option<Partition>, Reason>) -> CardSlotRead {
        match r {
            Ok(Some(partition)) => CardSlotRead {
                number: 0,
                present: true,
                place: 0,
                differs: 0,
                partition,
            },
            Ok(None) => CardSlotRead {
                number: 0,
                present: false,
                place: 0,
                differs: 0,
                partition: Partition::zero(),
            },
            Err(w) => {
                let k = CardAnswer::from(w);
                CardSlotRead {
                    number: k.number,
                    present: false,
                    place: k.place,
                    differs: k.differs,
                    partition: Partition::zero(),
                }
            }
        }
    }
}

impl From<Result<Option<Entry>, Reason>> for CardUsedRead {
    ghost from_gives = { λ r a. a ≡ used_to_c (used_means r) };

    #[tactic(auto, unfolding(crate::specs::CardExports::crossed_at, listing::specs::Meanings::first_used))]
    fn from(r: Result<Option<Entry>, Reason>) -> CardUsedRead {
        match r {
            Ok(Some(e)) => CardUsedRead {
                number: 0,
                found: true,
                slot: e.slot.0,
                place: 0,
                differs: 0,
                partition: e.partition,
            },
            Ok(None) => CardUsedRead {
                number: 0,
                found: false,
                slot: 0,
                place: 0,
                differs: 0,
                partition: Partition::zero(),
            },
            Err(w) => {
                let k = CardAnswer::from(w);
                CardUsedRead {
                    number: k.number,
                    found: false,
                    slot: 0,
                    place: k.place,
                    differs: k.differs,
                    partition: Partition::zero(),
                }
            }
        }
    }
}
