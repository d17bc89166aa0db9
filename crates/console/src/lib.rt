// What the programs share: reading standard input, all of it or piece by piece, writing to standard output, and saying on standard error what failed.
//
// A read or a write that a signal interrupts is asked again. Any other failure is told to the caller, who says it and gives no verdict.
// A reader and a writer are whatever `main` hands over, so that the contracts can say which bytes are read and written.
#![tactic(auto)]

ghost use Rattle.std.specs.Prelude.{◌≡◌, ◌≢◌, ◌↔◌, ◌<◌, ◌≤◌, ℕ, List, length, take, max, min, true, ◌⊎◌, IsTrue, IsFalse, IfErr, IfSome, IsOk, IsNone, Some, false, MatchResult};
ghost use Rattle.console.specs.declared.Failure.TheVariants as Failure;
ghost use Rattle.std.specs.Io.KnownBytes.{Appends, Consumes, IsAtEnd, ReadConsumes};
ghost use Rattle.std.specs.Io.{ReadsAtMost};
ghost use Rattle.std.specs.IoError.{error_kind};
ghost use Rattle.io.specs.Digits.{IsDigitCount, last_digits};
ghost use Rattle.console.specs.Answers.{Writes, failure_text, failure_line};

use arrayvec::ArrayVec;
use std::env::{Env, FillError};
use std::fmt;
use std::io::{Error, ErrorKind, Read, Write};

// Whether a read or a write only failed because a signal interrupted it.
fn is_interrupted(e: &Error) -> bool
    ensures { IsTrue result ↔ (error_kind e.now ≡ ErrorKind.Interrupted) }
{
    e.kind() == ErrorKind::Interrupted
}

// Reads the next piece of the input, as long as one read gives it. A piece of no bytes is the end. It is asked again for as long as signals interrupt it; a proved loop has
// to end, so its turns are counted, up to a number that no run comes to.
pub fn read_piece<R: Read>(input: &mut R, buf: &mut [u8]) -> Result<usize, Error>
    ensures bound { ReadsAtMost result buf.new }
    ensures bytes { ReadConsumes (R.remaining input.old) (R.remaining input.new) result buf.new }
    ensures retried { IfErr result (λ e. error_kind e ≢ ErrorKind.Interrupted) }
{
    'turns: for _ in 0..u64::MAX {
        match input.read(buf) {
            Ok(n) => return Ok(n),
            Err(e) => {
                if !is_interrupted(&e) {
                    return Err(e);
                }
            }
        }
    }
    Err(Error::from(ErrorKind::TimedOut))
}

// Reads the input until it ends or the buffer is full.
// It stays a `while` for its clause `bytes`: std's `read_exact` does not say how many bytes came before the end or a failure.
pub fn read_input<R: Read>(input: &mut R, buf: &mut [u8]) -> Result<usize, Error>
    ensures bound { ReadsAtMost result buf.new }
    ensures bytes { MatchResult result
        (λ n. Consumes (R.remaining input.old) (R.remaining input.new) (take n buf.new) × (n < length buf.new → IsAtEnd (R.remaining input.new)))
        (λ _. (n : ℕ) × Consumes (R.remaining input.old) (R.remaining input.new) (take n buf.new)) }
    ensures retried { IfErr result (λ e. error_kind e ≢ ErrorKind.Interrupted) }
{
    let mut done = 0;
    while done < buf.len() {
        let rest = &mut buf[done..];
        let n = read_piece(input, rest)?;
        if n == 0 {
            return Ok(done);
        }
        done += n;
    }
    Ok(done)
}

// Writes all bytes, and answers whether that went well. Where it did not, some of them may have been written.
// It stays a loop for its clause: std's `write_all` does not promise that these are a part from the front.
fn write_all<W: Write>(writer: &mut W, s: &[u8]) -> bool
    ensures { Writes (W.contents writer.old) true (W.contents writer.new) result s.now }
{
    let mut done = 0;
    'writes: for _ in 0..u64::MAX {
        if s.len() <= done {
            return true;
        }
        match writer.write(&s[done..]) {
            Ok(0) => return false,
            Ok(n) => done += n,
            Err(e) => {
                if !is_interrupted(&e) {
                    return false;
                }
            }
        }
    }
    false
}

// What failed: a read of the input, or a write of the output.
#[derive(Clone, Copy, Debug, PartialEq, Eq)]
pub enum Failure {
    Input,
    Output,
}

impl fmt::Display for Failure {
    ghost output = { λ f. Some (failure_text f) };

    fn fmt<W: fmt::Write>(&self, f: &mut fmt::Formatter<W>) -> fmt::Result {
        match self {
            Failure::Input => write!(f, "cannot read the input"),
            Failure::Output => write!(f, "cannot write the output"),
        }
    }
}

// How many bytes of a text are laid out before it is written.
const ROOM: usize = 1024;

// Where a program writes, and whether all writes so far went well. After one that did not, nothing more is written.
#[derive(Drop)]
pub struct Output<W> {
    writer: W,
    ok: bool,
}

impl<W: Write> Output<W> {
    pub fn new(writer: W) -> Output<W>
        ensures writer { result.writer ≡ writer }
        ensures ok { result.ok ≡ true }
    {
        Output { writer, ok: true }
    }

    // Whether all writes so far went well.
    pub fn is_ok(&self) -> bool
        ensures { result ≡ self.now.ok }
    {
        self.ok
    }

    // What a program has to say of itself once it has ended so: that a write failed, or else that a read did.
    pub fn failure(&self, ended: &Result<(), Error>) -> Option<Failure>
        ensures output { result ≡ Some Failure.Output ↔ (self.now.ok ≡ false) }
        ensures none { IsNone result ↔ (self.now.ok ≡ true) × IsOk ended.now }
    {
        if !self.ok {
            Some(Failure::Output)
        } else if ended.is_err() {
            Some(Failure::Input)
        } else {
            None
        }
    }

    // Writes a text as one piece, unless an earlier write failed. `write!` and `writeln!` call it, in place of the method of `Write`, so its clauses say
    // what is written where a write fails, too; of a text whose bytes no clause knows, that nothing is written after one that failed. The text is laid out
    // first, in a room of 1,024 bytes. Of a text that needs more, or whose `fmt` answers an error of its own, nothing is written, and that counts as a failed
    // write. The longest line of the programs has some 550 bytes.
    pub fn write_fmt<D: fmt::Display + Drop>(&mut self, text: D) -> Result<(), Error>
        ensures written { IfSome (D.output text) (λ bs. Writes (W.contents self.old.writer) self.old.ok (W.contents self.new.writer) self.new.ok bs) }
        ensures any { (bs : List ℕ) × Writes (W.contents self.old.writer) self.old.ok (W.contents self.new.writer) self.new.ok bs }
        ensures told { IsOk result ↔ (self.new.ok ≡ true) }
    {
        let mut room: ArrayVec<u8, ROOM> = ArrayVec::new();
        match room.write_fmt(text) {
            Ok(()) => self.write_all(&room),
            Err(e) => {
                self.ok = false;
                Err(e)
            }
        }
    }

    // Writes bytes, unless an earlier write failed.
    pub fn text(&mut self, s: &[u8])
        ensures { Writes (W.contents self.old.writer) self.old.ok (W.contents self.new.writer) self.new.ok s.now }
    {
        if self.ok {
            self.ok = write_all(&mut self.writer, s);
        }
    }

    // The same of a number, in decimal digits.
    pub fn decimal(&mut self, n: u64)
        ensures { (k : ℕ) × IsDigitCount 10 1 n k
            × Writes (W.contents self.old.writer) self.old.ok (W.contents self.new.writer) self.new.ok (last_digits 10 k n) }
    {
        let mut digits = [0u8; 20];
        let k = io::decimal(n, &mut digits);
        self.text(&digits[..k]);
    }

    // The same of a number in hexadecimal digits, with zeros in front up to a width.
    pub fn hex(&mut self, n: u64, width: usize)
        ensures { (k : ℕ) × IsDigitCount 16 (min (max width 1) 16) n k
            × Writes (W.contents self.old.writer) self.old.ok (W.contents self.new.writer) self.new.ok (last_digits 16 k n) }
    {
        let mut digits = [0u8; 16];
        let k = io::hex(n, width, &mut digits);
        self.text(&digits[..k]);
    }
}

// Writes to an output, for code that is generic over writers. After a failed write nothing more is written, and each call fails.
impl<W: Write> Write for Output<W> {
    ghost contents = { λ out. W.contents out.writer };

    fn write(&mut self, s: &[u8]) -> Result<usize, Error> {
        if !self.ok {
            return Err(Error::from(ErrorKind::BrokenPipe));
        }
        match self.writer.write(s) {
            Ok(n) => Ok(n),
            Err(e) => {
                self.ok = is_interrupted(&e);
                Err(e)
            }
        }
    }

    fn flush(&mut self) -> Result<(), Error> {
        self.writer.flush()
    }

    fn write_all(&mut self, s: &[u8]) -> Result<(), Error>
        ensures written { Writes (W.contents self.old.writer) self.old.ok (W.contents self.new.writer) self.new.ok s.now }
        ensures told { IsOk result ↔ (self.new.ok ≡ true) }
    {
        self.text(s);
        if !self.ok {
            return Err(Error::from(ErrorKind::BrokenPipe));
        }
        Ok(())
    }
}

// Writes a line to standard error. Where that fails too, nothing is left to say it on.
pub fn complain<W: Write>(errors: &mut W, line: &[u8])
    ensures { (n : ℕ) × Appends (W.contents errors.old) (W.contents errors.new) (take n line.now) }
{
    write_all(errors, line);
}

// Writes what failed to standard error, as one line behind the program's name.
pub fn complain_of<W: Write>(errors: &mut W, program: &str, failure: Failure)
    ensures { (n : ℕ) × Appends (W.contents errors.old) (W.contents errors.new) (take n (failure_line program.now failure)) }
{
    let mut line: ArrayVec<u8, ROOM> = ArrayVec::new();
    if writeln!(line, "{program}: {failure}").is_ok() {
        complain(errors, &line);
    }
}

// Whether there is an argument with this number. Number 0 is the program's own name.
fn has_argument<E: Env>(env: &E, i: usize) -> bool {
    !matches!(env.arg(i, &mut []), Err(FillError::NotPresent))
}

// Whether the first argument is `--help`.
fn is_help<E: Env>(env: &E) -> bool {
    let mut word = [0u8; 6];
    matches!(env.arg(1, &mut word), Ok(6)) && word == *b"--help"
}

// Whether a program that takes no arguments was given none. If it was given any, its usage line is written: to standard output for `--help` alone, else to standard error.
pub fn no_arguments<E: Env, W: Write, X: Write>(
    env: &E,
    usage: &[u8],
    out: &mut Output<W>,
    errors: &mut X,
) -> bool
    ensures none { IsTrue result → (out.new ≡ out.old) × (errors.new ≡ errors.old) }
    ensures told { IsFalse result
        → Writes (W.contents out.old.writer) out.old.ok (W.contents out.new.writer) out.new.ok usage.now × (errors.new ≡ errors.old)
        ⊎ (out.new ≡ out.old) × ((n : ℕ) × Appends (X.contents errors.old) (X.contents errors.new) (take n usage.now)) }
{
    if !has_argument(env, 1) {
        return true;
    }
    if is_help(env) && !has_argument(env, 2) {
        out.text(usage);
    } else {
        complain(errors, usage);
    }
    false
}
