// The tape, read from standard input.
ghost use Rattle.std.specs.Prelude.{◌+◌, ◌≤◌, Some};
ghost use Rattle.replay_calls.specs.Texts.{no_more_text};

use crate::kinds::Kind;
use crate::told::Answer;
use std::error::Error;
use std::fmt;
use std::io::{Read, Write};

// The arguments of a step, from the start on: 156 bytes at most, or a length of one byte and as many bytes.
#[derive(Clone, Copy)]
pub struct Args(pub [u8; 256]);

impl Args {
    // The N bytes at a place.
    pub fn array<const N: usize>(&self, at: usize) -> [u8; N]
        requires { at + N ≤ 256 }
    {
        let mut bytes = [0; N];
        bytes.copy_from_slice(&self.0[at..at + N]);
        bytes
    }

    pub fn u16(&self, at: usize) -> u16
        requires { at + 2 ≤ 256 }
    {
        u16::from_le_bytes(self.array(at))
    }

    pub fn u32(&self, at: usize) -> u32
        requires { at + 4 ≤ 256 }
    {
        u32::from_le_bytes(self.array(at))
    }

    pub fn u64(&self, at: usize) -> u64
        requires { at + 8 ≤ 256 }
    {
        u64::from_le_bytes(self.array(at))
    }
}

// The tape ended, or could not be read, where more of it was wanted.
#[derive(Clone, Copy, Debug, PartialEq, Eq)]
pub struct NoMore;

impl fmt::Display for NoMore {
    ghost output = { λ _. Some no_more_text };

    fn fmt<W: fmt::Write>(&self, f: &mut fmt::Formatter<W>) -> fmt::Result {
        write!(f, "no more of the tape could be read")
    }
}

impl Error for NoMore {}

// The tape, and where it is said that it cannot be read.
#[derive(Drop)]
pub struct Tape<R, X> {
    input: R,
    errors: X,
}

impl<R: Read, X: Write> Tape<R, X> {
    pub fn new(input: R, errors: X) -> Tape<R, X> {
        Tape { input, errors }
    }

    // Reads as many bytes as there is room for. A tape that cannot be read is said on standard error.
    pub fn fill(&mut self, room: &mut [u8]) -> Result<(), NoMore> {
        let wanted = room.len();
        match console::read_input(&mut self.input, room) {
            Ok(n) if n == wanted => Ok(()),
            Ok(_) => Err(NoMore),
            Err(_) => {
                console::complain(&mut self.errors, b"replay: cannot read the input\n");
                Err(NoMore)
            }
        }
    }

    // Reads the next N bytes.
    pub fn array<const N: usize>(&mut self) -> Result<[u8; N], NoMore> {
        let mut bytes = [0; N];
        self.fill(&mut bytes)?;
        Ok(bytes)
    }

    // Reads the arguments of a call.
    pub fn arguments(&mut self, kind: Kind) -> Result<Args, NoMore> {
        let mut args = [0; 256];
        self.fill(&mut args[..kind.arguments()])?;
        if kind == Kind::MbrRecord {
            let n = usize::from(args[0]);
            self.fill(&mut args[1..1 + n])?;
        }
        Ok(Args(args))
    }

    // Reads what a call is to answer.
    pub fn answer(&mut self, kind: Kind) -> Result<Answer, NoMore> {
        let mut bytes = [0; 128];
        let n = kind.first();
        self.fill(&mut bytes[..n])?;
        let more = kind.rest(bytes[0]);
        self.fill(&mut bytes[n..n + more])?;
        Ok(Answer(bytes))
    }
}
