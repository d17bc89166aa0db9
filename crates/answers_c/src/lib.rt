// What comes back to C from the ported calls and from the card calls alike: document 01's number first, 0 for accepted, then the values; beside a refusal each value is zero.
// What each struct holds is in specs/Crossing. Nothing here is exported: gpt_c and card_c, which are, both stand on this crate.
#![tactic(auto)]

ghost use Rattle.std.specs.Prelude.{◌≡◌};
ghost use Rattle.units.specs.Answer.{number_of};
ghost use Rattle.units.specs.Meanings.{means};
ghost use Rattle.partition.specs.Meanings.{next_means, read_means};
ghost use Rattle.answers_c.specs.Crossing.{count_to_c, next_to_c, found_to_c, held_to_c};

use partition::Partition;
use units::{Refusal, Slot};

#[repr(C)]
#[derive(Clone, Copy, Debug, PartialEq, Eq)]
pub struct GptCount {
    pub number: u32,
    pub count: u32,
}

// Slot 0: no more.
#[repr(C)]
#[derive(Clone, Copy, Debug, PartialEq, Eq)]
pub struct GptNext {
    pub number: u32,
    pub slot: u32,
}

// Whether the slot's entry is present, and its record.
#[repr(C)]
#[derive(Clone, Copy, Debug, PartialEq, Eq)]
pub struct GptSlotRead {
    pub number: u32,
    pub present: bool,
    pub partition: Partition,
}

// The number of a verdict.
pub fn number_of(v: Result<(), Refusal>) -> u32
    ensures { result ≡ number_of (means v) }
{
    match v {
        Ok(()) => 0,
        Err(w) => w.number(),
    }
}

impl From<Result<u32, Refusal>> for GptCount {
    ghost from_gives = { λ r a. a ≡ count_to_c (means r) };

    #[tactic(auto, unfolding(crate::specs::Crossing::crossed))]
    fn from(r: Result<u32, Refusal>) -> GptCount {
        match r {
            Ok(count) => GptCount { number: 0, count },
            Err(w) => GptCount {
                number: w.number(),
                count: 0,
            },
        }
    }
}

impl From<Result<Option<Slot>, Refusal>> for GptNext {
    ghost from_gives = { λ r a. a ≡ next_to_c (next_means r) };

    #[tactic(auto, unfolding(crate::specs::Crossing::crossed))]
    fn from(r: Result<Option<Slot>, Refusal>) -> GptNext {
        match r {
            Ok(Some(s)) => GptNext {
                number: 0,
                slot: s.0,
            },
            Ok(None) => GptNext { number: 0, slot: 0 },
            Err(w) => GptNext {
                number: w.number(),
                slot: 0,
            },
        }
    }
}

impl From<Result<Slot, Refusal>> for GptNext {
    ghost from_gives = { λ r a. a ≡ found_to_c (means r) };

    #[tactic(auto, unfolding(crate::specs::Crossing::crossed))]
    fn from(r: Result<Slot, Refusal>) -> GptNext {
        match r {
            Ok(s) => GptNext {
                number: 0,
                slot: s.0,
            },
            Err(w) => GptNext {
                number: w.number(),
                slot: 0,
            },
        }
    }
}

impl From<Result<Option<Partition>, Refusal>> for GptSlotRead {
    ghost from_gives = { λ r a. a ≡ held_to_c (read_means r) };

    #[tactic(auto, unfolding(crate::specs::Crossing::crossed))]
    fn from(r: Result<Option<Partition>, Refusal>) -> GptSlotRead {
        match r {
            Ok(Some(partition)) => GptSlotRead {
                number: 0,
                present: true,
                partition,
            },
            Ok(None) => GptSlotRead {
                number: 0,
                present: false,
                partition: Partition::zero(),
            },
            Err(w) => GptSlotRead {
                number: w.number(),
                present: false,
                partition: Partition::zero(),
            },
        }
    }
}
