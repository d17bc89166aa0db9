// The words of an answer.
ghost use Rattle.std.specs.Prelude.{Some};
ghost use Rattle.cases.specs.Texts.{refused_text};

use console::Output;
use std::io::Write;
use std::{fmt, io};
use units::{Reason, Refusal};

// A refusal's number, and the slot that it carries. The place is left out.
#[derive(Clone, Copy)]
pub struct Refused(pub Reason);

impl fmt::Display for Refused {
    ghost output = { λ refused. Some (refused_text refused.0.what) };

    fn fmt<W: fmt::Write>(&self, f: &mut fmt::Formatter<W>) -> fmt::Result {
        let w = self.0.what;
        write!(f, "refused {}", w.number())?;
        match w {
            Refusal::Overlap(slot) | Refusal::TwinGuid(slot) => write!(f, ", slot {}", slot.0),
            _ => Ok(()),
        }
    }
}

// Whether the image is as it was before.
pub fn unchanged(is: bool) -> &'static str {
    if is { "unchanged" } else { "changed" }
}

// The end of a line: accepted, or refused and whether the image is as it was.
pub fn verdict(v: Result<(), Reason>, same: bool, out: &mut Output<impl Write>) -> io::Result<()> {
    match v {
        Ok(()) => writeln!(out, ": accepted"),
        Err(w) => writeln!(out, ": {}, {}", Refused(w), unchanged(same)),
    }
}

// The same of a payload write, with the bytes that it says it stored.
pub fn stored(
    v: Result<usize, Reason>,
    same: bool,
    out: &mut Output<impl Write>,
) -> io::Result<()> {
    match v {
        Ok(n) => writeln!(out, ": accepted, {n} bytes"),
        Err(w) => writeln!(out, ": {}, {}", Refused(w), unchanged(same)),
    }
}
