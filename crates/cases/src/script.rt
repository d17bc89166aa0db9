// The script: a line is a command in plain words, named by its first letter, with the numbers that it needs in their order.
ghost use Rattle.std.specs.Prelude.{◌≤◌, length};

use units::{BytePlace, Lba, Slot};

// What a line asks for.
#[derive(Clone, Copy, Debug, PartialEq, Eq)]
pub enum Command {
    // a new image
    Image,
    // card calls that accept or refuse
    Lay,
    Put,
    NilPut,
    BearingPut,
    Clear,
    Write,
    // looks at the card
    Used,
    After,
    Get,
    Read,
    Every,
    // looks at the image
    Digest,
    Holds,
    // changes of the image, for which nothing is printed
    Flip,
    Seal,
    Table,
    // a comment or an empty line
    Nothing,
    Unknown,
}

// A line of the script, as it stands there.
#[derive(Clone, Copy)]
pub struct Line<'a>(pub &'a [u8]);

impl Line<'_> {
    pub fn command(self) -> Command {
        match self.0.first() {
            Some(b'i') => Command::Image,
            Some(b'l') => Command::Lay,
            Some(b'p') => Command::Put,
            Some(b'n') => Command::NilPut,
            Some(b'b') => Command::BearingPut,
            Some(b'c') => Command::Clear,
            Some(b'w') => Command::Write,
            Some(b'u') => Command::Used,
            Some(b'a') => Command::After,
            Some(b'g') => Command::Get,
            Some(b'r') => Command::Read,
            Some(b'e') => Command::Every,
            Some(b'd') => Command::Digest,
            Some(b'h') => Command::Holds,
            Some(b'f') => Command::Flip,
            Some(b's') => Command::Seal,
            Some(b't') => Command::Table,
            None | Some(0) | Some(b'#') => Command::Nothing,
            Some(_) => Command::Unknown,
        }
    }

    // Number k of the line, counted from 0; 0 if there are fewer.
    pub fn number(self, k: usize) -> u64 {
        let mut rest = from_digit(self.0);
        for _ in 0..k {
            rest = from_digit(&rest[digits(rest)..]);
        }
        value(&rest[..digits(rest)])
    }

    pub fn block(self, k: usize) -> Lba {
        Lba(self.number(k))
    }

    pub fn slot(self, k: usize) -> Slot {
        Slot((self.number(k) & 0xFFFF_FFFF) as u32)
    }

    pub fn place(self, k: usize) -> BytePlace {
        BytePlace(self.count(k))
    }

    pub fn count(self, k: usize) -> usize {
        self.number(k) as usize
    }

    pub fn byte(self, k: usize) -> u8 {
        (self.number(k) & 0xFF) as u8
    }

    // The name whose units are the numbers after the first four.
    pub fn name(self) -> [u16; 36] {
        let mut name = [0; 36];
        for (unit, k) in name.iter_mut().zip(4..40) {
            *unit = (self.number(k) & 0xFFFF) as u16;
        }
        name
    }
}

// The letters from the first digit on; none if there is no digit.
fn from_digit(letters: &[u8]) -> &[u8] {
    match letters.iter().position(u8::is_ascii_digit) {
        Some(n) => &letters[n..],
        None => &[],
    }
}

// How many digits stand in front of the first other letter.
fn digits(letters: &[u8]) -> usize
    ensures { result ≤ length letters.now }
{
    match letters.iter().position(|letter| !letter.is_ascii_digit()) {
        Some(n) => n,
        None => letters.len(),
    }
}

// The number that digits write. A digit for which 64 bits have no room leaves it as it was.
fn value(digits: &[u8]) -> u64 {
    digits
        .iter()
        .fold(0, |number, digit| with_digit(number, *digit))
}

fn with_digit(number: u64, digit: u8) -> u64 {
    match number.checked_mul(10) {
        Some(tens) => tens.wrapping_add(u64::from(digit.wrapping_sub(b'0'))),
        None => number,
    }
}
