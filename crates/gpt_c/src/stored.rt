// How many bytes a ported call stored, for C.
ghost use Rattle.std.specs.Prelude.{◌≡◌};
ghost use Rattle.units.specs.Meanings.{means};
ghost use Rattle.gpt_c.specs.Exports.{stored_to_c};

use units::Refusal;

// How many bytes were stored.
#[repr(C)]
#[derive(Clone, Copy, Debug, PartialEq, Eq)]
pub struct GptStored {
    pub number: u32,
    pub bytes: u64,
}

impl From<Result<usize, Refusal>> for GptStored {
    ghost from_gives = { λ r a. a ≡ stored_to_c (means r) };

    #[tactic(auto, unfolding(answers_c::specs::Crossing::crossed))]
    fn from(r: Result<usize, Refusal>) -> GptStored {
        match r {
            Ok(n) => GptStored {
                number: 0,
                bytes: n as u64,
            },
            Err(w) => GptStored {
                number: w.number(),
                bytes: 0,
            },
        }
    }
}
