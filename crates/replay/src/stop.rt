// Why a replay stops before the tape's end.
ghost use Rattle.std.specs.Prelude.{Some};
ghost use Rattle.replay.specs.Texts.{stop_text};

use replay_calls::kinds::UnknownKind;
use replay_calls::tape::NoMore;
use std::error::Error;
use std::fmt;

#[derive(Clone, Copy, Debug, PartialEq, Eq)]
pub enum Stop {
    NoMore,
    UnknownKind,
    LongImage,
    OutsideImage,
    TooManySteps,
}

impl fmt::Display for Stop {
    ghost output = { λ stop. Some (stop_text stop) };

    fn fmt<W: fmt::Write>(&self, f: &mut fmt::Formatter<W>) -> fmt::Result {
        match self {
            Stop::NoMore => write!(f, "{}", NoMore),
            Stop::UnknownKind => write!(f, "{}", UnknownKind),
            Stop::LongImage => write!(f, "an image of more than 65536 bytes"),
            Stop::OutsideImage => write!(f, "a store outside the image"),
            Stop::TooManySteps => write!(f, "a tape of more than 1000000 steps"),
        }
    }
}

impl Error for Stop {}

impl From<NoMore> for Stop {
    fn from(_e: NoMore) -> Stop {
        Stop::NoMore
    }
}

impl From<UnknownKind> for Stop {
    fn from(_e: UnknownKind) -> Stop {
        Stop::UnknownKind
    }
}
