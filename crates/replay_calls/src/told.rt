// Answers as the tape has them: the number, the values of an accepted call, and the sum of the image. What is left of the 128 bytes is zero, so two
// answers are the same where all their bytes are.
ghost use Rattle.std.specs.Prelude.{◌+◌, ◌≤◌, Some, length};
ghost use Rattle.replay_calls.specs.Texts.{told_text};

use crate::kinds::Kind;
use header::Header;
use std::fmt;
use units::Refusal;

#[derive(Clone, Copy, Debug, PartialEq, Eq)]
pub struct Answer(pub [u8; 128]);

impl Answer {
    // A refusal: its number alone.
    pub fn refused(w: Refusal) -> Answer {
        Answer::numbered(w.number())
    }

    // An accepted call with no values.
    pub fn accepted() -> Answer {
        Answer([0; 128])
    }

    // A number alone. All numbers of refusals fit a byte.
    pub fn numbered(number: u32) -> Answer {
        Answer::accepted().with_byte(0, number)
    }

    // The answer with the low byte of a number at a place.
    pub fn with_byte(self, at: usize, x: u32) -> Answer
        requires { at + 1 ≤ 128 }
    {
        let mut bytes = self.0;
        bytes[at] = (x & 0xFF) as u8;
        Answer(bytes)
    }

    // The answer with bytes at a place.
    pub fn with_bytes(self, at: usize, bytes: &[u8]) -> Answer
        requires { at + length bytes.now ≤ 128 }
    {
        let mut all = self.0;
        all[at..at + bytes.len()].copy_from_slice(bytes);
        Answer(all)
    }

    pub fn with_u32(self, at: usize, x: u32) -> Answer
        requires { at + 4 ≤ 128 }
    {
        self.with_bytes(at, &x.to_le_bytes())
    }

    pub fn with_u64(self, at: usize, x: u64) -> Answer
        requires { at + 8 ≤ 128 }
    {
        self.with_bytes(at, &x.to_le_bytes())
    }

    // The answer with a header's bytes 8 to 91 at a place.
    pub fn with_header(self, at: usize, h: Header) -> Answer
        requires { at + 84 ≤ 128 }
    {
        let mut card = [0; 92];
        header::inner::put_header(&mut card, 0, h);
        self.with_bytes(at, &card[8..])
    }

    // The answer with the sum of the image at a place.
    pub fn with_sum(self, at: usize, img: &[u8]) -> Answer
        requires { at + 4 ≤ 128 }
    {
        self.with_u32(at, crc32::crc32(img))
    }

    // What a call that stores bytes answers, and the sum of the image.
    pub fn stored(r: Result<usize, Refusal>, img: &[u8]) -> Answer {
        match r {
            Err(w) => Answer::refused(w).with_sum(1, img),
            Ok(_n) => Answer::accepted().with_sum(1, img),
        }
    }

    // The answer as the tape has it for a call of this kind.
    pub fn to(self, kind: Kind) -> Told {
        Told { answer: self, kind }
    }
}

// An answer to a call of a kind, as it stands on the tape, in hexadecimal digits with nothing between them.
#[derive(Clone, Copy)]
pub struct Told {
    answer: Answer,
    kind: Kind,
}

impl fmt::Display for Told {
    ghost output = { λ told. Some (told_text told) };

    fn fmt<W: fmt::Write>(&self, f: &mut fmt::Formatter<W>) -> fmt::Result {
        let bytes = self.answer.0;
        let n = self.kind.length(bytes[0]);
        for &byte in &bytes[..n] {
            write!(f, "{byte:02x}")?;
        }
        Ok(())
    }
}
