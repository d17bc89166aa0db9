// The check sum by the table of sixteen rows: for this product's other crates.
// These are no public calls: they have `requires`, which a proved caller meets and any other caller has nobody to check.
ghost use Rattle.std.specs.Prelude.{◌≡◌, ℕ, ◌+◌, ◌*◌, ◌<◌, ◌≤◌, length};
ghost use Rattle.std.specs.Int.Bits.{bit_xor};
ghost use Rattle.crc32.specs.Crc.{steps, feed, crc_from};
ghost use Rattle.crc32.specs.HeaderSum.{header_sum};

use crate::rows::ROWS;
use crate::words::word_at;
use crate::{FRESH, sparse};

// Row j of the table at k.
fn row(j: usize, k: u32) -> u32
    requires { (j < 16) × (k < 256) }
    ensures { result ≡ steps (8 * j + 8) k }
{
    ROWS[256 * j + k as usize]
}

// A word and 4 * j bytes of zero behind it, by the four rows from 4 * j on.
fn four(j: usize, a: u32) -> u32
    requires { j < 4 }
    ensures { result ≡ steps (32 * j + 32) a }
{
    row(4 * j, a / 16777216)
        ^ row(4 * j + 1, a / 65536 % 256)
        ^ row(4 * j + 2, a / 256 % 256)
        ^ row(4 * j + 3, a % 256)
}

// One byte.
fn one(r: u32, b: u8) -> u32
    ensures { result ≡ steps 8 (bit_xor r b) }
{
    let a = r ^ u32::from(b);
    (a / 256) ^ row(0, a % 256)
}

// Sixteen bytes. The word that waits for the register comes last, so that the other twelve look-ups are done before it.
fn block(r: u32, b: &[u8]) -> u32
    requires { length b.now ≡ 16 }
    ensures { result ≡ feed r b.now }
{
    four(0, word_at(b, 12))
        ^ four(1, word_at(b, 8))
        ^ four(2, word_at(b, 4))
        ^ four(3, r ^ word_at(b, 0))
}

// What is left, byte by byte.
fn bytes(r: u32, s: &[u8]) -> u32
    ensures { result ≡ feed r s.now }
{
    s.iter().fold(r, |x, b| one(x, *b))
}

// What is left, word by word: a header has three words that fill no block.
fn words(r: u32, s: &[u8]) -> u32
    ensures { result ≡ feed r s.now }
{
    let mut x = r;
    let mut rest = s;
    while let Some((b, more)) = rest.split_first_chunk::<4>() {
        x = four(0, x ^ word_at(b, 0));
        rest = more;
    }
    bytes(x, rest)
}

// The register r after the bytes of s, block by block, whatever they are.
pub fn run(r: u32, s: &[u8]) -> u32
    ensures { result ≡ feed r s.now }
{
    let mut x = r;
    let mut rest = s;
    while let Some((b, more)) = rest.split_first_chunk::<16>() {
        x = block(x, b);
        rest = more;
    }
    words(x, rest)
}

// The check sum that goes on over s from a running value: the sum of the bytes before s, or FRESH where there are none.
pub fn sum(running: u32, s: &[u8]) -> u32
    ensures { result ≡ crc_from running s.now }
{
    sparse::run(running ^ 0xffffffff, s) ^ 0xffffffff
}

// The check sum of the header of 92 bytes that starts at a place of s. Its own field, the bytes 16 to 19, goes in as four bytes of zero.
// It goes on by the register itself over the three pieces, and inverts it only before the first and after the last.
pub fn header_sum_at(s: &[u8], at: usize) -> u32
    requires { at + 92 ≤ length s.now }
    ensures { result ≡ header_sum s.now at }
{
    let front = block(FRESH ^ 0xffffffff, &s[at..at + 16]);
    let field = four(0, front);
    run(field, &s[at + 20..at + 92]) ^ 0xffffffff
}
