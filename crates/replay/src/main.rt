// Replays answers of the Rust that this library is a port of: a tape on standard input has calls, their arguments and what the Rust answered, and the proved
// calls are made again and compared. README.md, beside the folder `src`, has the tape's format.
#![tactic(auto)]

mod stop; // stop.rt: why a replay stops before the tape's end

ghost use Rattle.std.specs.Prelude.{◌≤◌};

use crate::stop::Stop;
use console::Output;
use replay_calls::answers;
use replay_calls::kinds::{Kind, Step};
use replay_calls::tape::Tape;
use replay_calls::told::Answer;
use std::io;
use std::io::{Read, Write};

// How many bytes the longest image has.
const LONGEST: usize = 65536;

// Nothing says that a tape ends, so there is a most.
const MOST_STEPS: u32 = 1000000;

// How many answers that differ are printed.
const SHOWN: u32 = 20;

// How far the replay has come: the image, which is the first `len` bytes, how many calls were made, how many by the number of their kind, and how many of
// them differ.
#[derive(Drop)]
struct Replay {
    img: [u8; LONGEST],
    len: usize,
    calls: u32,
    differ: u32,
    counts: [u32; 64],
}

impl Replay {
    fn new() -> Replay
        ensures { result.len ≤ 65536 }
    {
        Replay {
            img: [0; LONGEST],
            len: 0,
            calls: 0,
            differ: 0,
            counts: [0; 64],
        }
    }

    // A step that begins an image of zeros.
    fn image(&mut self, tape: &mut Tape<impl Read, impl Write>) -> Result<(), Stop>
        requires { self.old.len ≤ 65536 }
        ensures { self.new.len ≤ 65536 }
    {
        let len = u32::from_le_bytes(tape.array()?) as usize;
        if len > LONGEST {
            return Err(Stop::LongImage);
        }
        self.img[..len].fill(0);
        self.len = len;
        Ok(())
    }

    // A step that stores bytes of the tape in the image.
    fn store(&mut self, tape: &mut Tape<impl Read, impl Write>) -> Result<(), Stop>
        requires { self.old.len ≤ 65536 }
        ensures { self.new.len ≤ 65536 }
    {
        let [a, b, c, d, low, high] = tape.array::<6>()?;
        let at = u32::from_le_bytes([a, b, c, d]) as usize;
        let n = usize::from(u16::from_le_bytes([low, high]));
        if at + n > self.len {
            return Err(Stop::OutsideImage);
        }
        tape.fill(&mut self.img[at..at + n])?;
        Ok(())
    }

    // A step that calls something. The first answers that differ are printed. One that cannot be written does not end the replay: main says it.
    fn call(
        &mut self,
        kind: Kind,
        tape: &mut Tape<impl Read, impl Write>,
        out: &mut Output<impl Write>,
    ) -> Result<(), Stop>
        requires { self.old.len ≤ 65536 }
        ensures { self.new.len ≤ 65536 }
    {
        let args = tape.arguments(kind)?;
        let came = answers::answer(kind, &mut self.img[..self.len], &args);
        let expected = tape.answer(kind)?;
        self.calls = self.calls.saturating_add(1);
        let n = &mut self.counts[kind as usize];
        *n = n.saturating_add(1);
        if came != expected {
            if self.differ < SHOWN {
                let _ = self.show_difference(kind, expected, came, out);
            }
            self.differ = self.differ.saturating_add(1);
        }
        Ok(())
    }

    // A call that answered something else than the tape says.
    fn show_difference(
        &self,
        kind: Kind,
        expected: Answer,
        came: Answer,
        out: &mut Output<impl Write>,
    ) -> io::Result<()> {
        let (call, expected, came) = (self.calls, expected.to(kind), came.to(kind));
        writeln!(out, "call {call} {kind}: expected {expected}, came {came}")
    }

    // All steps of the tape.
    fn run(
        &mut self,
        tape: &mut Tape<impl Read, impl Write>,
        out: &mut Output<impl Write>,
    ) -> Result<(), Stop>
        requires { self.old.len ≤ 65536 }
    {
        for _ in 0..MOST_STEPS {
            let [byte] = tape.array::<1>()?;
            match Step::try_from(byte)? {
                Step::End => return Ok(()),
                Step::Image => self.image(tape)?,
                Step::Store => self.store(tape)?,
                Step::Call(kind) => self.call(kind, tape, out)?,
            }
        }
        Err(Stop::TooManySteps)
    }

    // What is printed of a tape that was replayed to its end.
    fn show(&self, out: &mut Output<impl Write>) -> io::Result<()> {
        let (calls, differ) = (self.calls, self.differ);
        let kinds = self.counts.iter().filter(|n| **n != 0).count();
        writeln!(out, "replayed {calls} calls of {kinds} kinds")?;
        for (number, n) in (0..64).zip(&self.counts) {
            show_count(number, *n, out)?;
        }
        writeln!(out, "differ {differ}")
    }
}

// A line for a kind that the tape has, by its number.
fn show_count(number: u8, n: u32, out: &mut Output<impl Write>) -> io::Result<()> {
    match Kind::try_from(number) {
        Ok(kind) if n != 0 => writeln!(out, "{kind} {n}"),
        _ => Ok(()),
    }
}

fn run(tape: &mut Tape<impl Read, impl Write>, out: &mut Output<impl Write>) -> io::Result<()> {
    let mut replay = Replay::new();
    match replay.run(tape, out) {
        Ok(()) => replay.show(out),
        Err(why) => writeln!(out, "{why}, after call {}", replay.calls),
    }
}

fn main(rt: HostRuntime) {
    let mut tape = Tape::new(rt.stdin(), rt.stderr());
    let mut out = Output::new(rt.stdout());
    let ended = run(&mut tape, &mut out);
    if let Some(failure) = out.failure(&ended) {
        console::complain_of(&mut rt.stderr(), "replay", failure);
    }
}
