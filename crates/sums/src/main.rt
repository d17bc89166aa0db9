// Prints the check sum CRC-32/ISO-HDLC of published vectors and then of standard input, so that
// anyone can compare what the proved code computes with what others have published.
//
// Each line has a sum, in eight hexadecimal digits, and says of what it is the sum. README.md,
// beside the folder `src`, says where each vector comes from. Input that cannot be read and output
// that cannot be written are said on standard error: of such an input there is no sum.
#![tactic(auto)]

ghost use Rattle.std.specs.Prelude.{ℕ, ◌-◌, ◌^◌, ◌%◌, ◌<◌, ◌≤◌, ◌≡◌, List, IfOk, Some, length, get_or, flat_map};
ghost use Rattle.std.specs.Io.KnownBytes.{Consumes, IsAtEnd};
ghost use Rattle.crc32.specs.Crc.{crc};
ghost use Rattle.console.specs.Answers.{spaced_byte};

use console::Output;
use std::io::{Error, Read, Write};
use std::{fmt, io};

const USAGE: &str =
    "usage: sums < BYTES (any number of them; the exit status is always 0, so read what is printed)\n";

// Texts of up to 14 bytes, from short to long; "123456789" is the catalogue's check value.
const SHORT_TEXTS: [&str; 12] = [
    "a",
    "ab",
    "abc",
    "abcd",
    "hello",
    "MySQL",
    "mysql",
    "123456789",
    "helloworld",
    "hello world",
    "Hello, World!",
    "message digest",
];

// Texts of 26 to 80 bytes, from short to long.
const LONG_TEXTS: [&str; 8] = [
    "abcdefghijklmnopqrstuvwxyz",
    "Test vector from febooti.com",
    "C is as portable as Stonehedge!!",
    "various CRC algorithms input data",
    "The quick brown fox jumps over the lazy dog",
    "The quick brown fox jumped over the lazy dog.",
    "ABCDEFGHIJKLMNOPQRSTUVWXYZabcdefghijklmnopqrstuvwxyz0123456789",
    "12345678901234567890123456789012345678901234567890123456789012345678901234567890",
];

// A line for bytes that are described by `what`.
fn show(bytes: &[u8], what: &str, out: &mut Output<impl Write>) -> io::Result<()> {
    writeln!(out, "{:08x} {what}", crc32::crc32(bytes))
}

// A line for each text, as it is.
fn show_texts(texts: &[&str], out: &mut Output<impl Write>) -> io::Result<()> {
    for text in texts {
        writeln!(out, "{:08x} \"{text}\"", crc32::crc32(text.as_bytes()))?;
    }
    Ok(())
}

// Bytes in hexadecimal digits, each after a space.
#[derive(Clone, Copy)]
struct Bytes<'a>(&'a [u8]);

impl fmt::Display for Bytes<'_> {
    ghost output = { λ bytes. Some (flat_map spaced_byte bytes.0.now) };

    fn fmt<W: fmt::Write>(&self, f: &mut fmt::Formatter<W>) -> fmt::Result {
        for &byte in self.0 {
            write!(f, " {byte:02x}")?;
        }
        Ok(())
    }
}

// A line for a few bytes that are printed in hexadecimal.
fn show_bytes(bytes: &[u8], out: &mut Output<impl Write>) -> io::Result<()> {
    writeln!(out, "{:08x} bytes{}", crc32::crc32(bytes), Bytes(bytes))
}

// Makes the lent bytes count up from 0, modulo 256.
fn fill_rising(bytes: &mut [u8])
    ensures bytes_len_unchanged { length bytes.new ≡ length bytes.old }
    ensures by_index { (k : ℕ) → k < length bytes.old → get_or bytes.new k 0 ≡ k % 256 }
{
    for (i, byte) in bytes.iter_mut().enumerate() {
        *byte = (i % 256) as u8;
    }
}

// A line for n times the same byte.
fn show_run(byte: u8, n: usize, out: &mut Output<impl Write>) -> io::Result<()>
    requires { n ≤ 65536 }
{
    let space = [byte; 65536];
    let sum = crc32::crc32(&space[..n]);
    writeln!(out, "{sum:08x} {n} bytes {byte:02x}")
}

// A line for the first n bytes of those that count up from 0.
fn show_rising(n: usize, what: &str, out: &mut Output<impl Write>) -> io::Result<()>
    requires { n ≤ 65536 }
{
    let mut space = [0; 65536];
    fill_rising(&mut space);
    show(&space[..n], what, out)
}

// The entry in a slot of a partition table: basic data, a GUID that ends in the slot's number, one block that no other slot has, no flags, the name "map".
fn entry(slot: u8) -> [u8; 128] {
    let block = 33 + u16::from(slot);
    let mut entry = [0; 128];
    entry[..31].copy_from_slice(
        b"\xa2\xa0\xd0\xeb\xe5\xb9\x33\x44\x87\xc0\x68\xb6\xb7\x26\x99\xc7\x20\x1c\x3f\x5a\xe7\x11\x6d\x4b\x9c\x04\x02\x42\xac\x11\x00",
    );
    entry[31] = slot;
    entry[32..34].copy_from_slice(&block.to_le_bytes());
    entry[40..42].copy_from_slice(&block.to_le_bytes());
    entry[56] = b'm';
    entry[58] = b'a';
    entry[60] = b'p';
    entry
}

// The entry array of a partition table, all of whose 128 slots are used.
fn entry_array() -> [u8; 16384] {
    let mut bytes = [0; 16384];
    for (slot, place) in (1..=128).zip(bytes.chunks_exact_mut(128)) {
        place.copy_from_slice(&entry(slot));
    }
    bytes
}

// The sum of the bytes in pieces, each as long as `cuts` says, as far as there are bytes, and then what is left. Wherever they are cut, it is the sum of them all.
fn sum_cut(bytes: &[u8], cuts: &[usize]) -> u32
    ensures { result ≡ crc bytes.now }
{
    let mut sum = crc32::FRESH;
    let mut rest = bytes;
    for cut in cuts {
        let n = rest.len().min(*cut);
        sum = crc32::crc32_next(sum, &rest[..n]);
        rest = &rest[n..];
    }
    crc32::crc32_next(sum, rest)
}

// A line for bytes that are summed piece by piece.
fn show_cut(
    bytes: &[u8],
    cuts: &[usize],
    what: &str,
    out: &mut Output<impl Write>,
) -> io::Result<()> {
    writeln!(out, "{:08x} the same array, {what}", sum_cut(bytes, cuts))
}

// One entry array, whole, block by block for both block sizes, and cut unevenly, with pieces of no bytes.
fn show_array(out: &mut Output<impl Write>) -> io::Result<()> {
    let array = entry_array();
    show(&array, "an entry array, 128 slots used", out)?;
    show_cut(&array, &[512; 32], "block by block of 512 bytes", out)?;
    show_cut(&array, &[4096; 4], "block by block of 4096 bytes", out)?;
    let uneven = [0, 1, 127, 129, 0, 511, 4097, 3, 8192];
    show_cut(&array, &uneven, "cut unevenly", out)
}

// The sum of the input and how many bytes it has. It goes on from piece to piece until the input ends; a person who types it has to say the end only once. A proved loop has to end: this one would where
// 64 bits could count no further piece, which no run comes to.
// It stays a `while` for its clause `taken`: std's `copy` does not say which bytes came.
fn sum_input<R: Read>(input: &mut R) -> Result<(u32, u64), Error>
    ensures taken { IfOk result (λ told. (bs : List ℕ) × Consumes (R.remaining input.old) (R.remaining input.new) bs
        × (told.0 ≡ crc bs) × (told.1 ≡ length bs)) }
    ensures whole { IfOk result (λ told. told.1 < 2 ^ 64 - 65537 → IsAtEnd (R.remaining input.new)) }
{
    let mut buf = [0u8; 65536];
    let mut sum = crc32::FRESH;
    let mut length: u64 = 0;
    while length < u64::MAX - 65536 {
        let n = console::read_piece(input, &mut buf)?;
        if n == 0 {
            return Ok((sum, length));
        }
        sum = crc32::crc32_next(sum, &buf[..n]);
        length += n as u64;
    }
    Ok((sum, length))
}

// Bytes that are no text: the least and the largest byte, and the vectors of AUTOSAR.
fn show_few_bytes(out: &mut Output<impl Write>) -> io::Result<()> {
    show_bytes(b"\x00", out)?;
    show_bytes(b"\xff", out)?;
    show_bytes(b"\xf2\x01\x83", out)?;
    show_bytes(b"\x92\x6b\x55", out)?;
    show_bytes(b"\x00\x00\x00\x00", out)?;
    show_bytes(b"\xff\xff\xff\xff", out)?;
    show_bytes(b"\x0f\xaa\x00\x55", out)?;
    show_bytes(b"\x00\xff\x55\x11", out)?;
    show_bytes(b"\x33\x22\x55\xaa\xbb\xcc\xdd\xee\xff", out)
}

// The three chunks of a PNG file of one red pixel: a chunk's sum covers its type and its data.
fn show_png_chunks(out: &mut Output<impl Write>) -> io::Result<()> {
    show(b"IEND", "PNG chunk IEND", out)?;
    show(
        b"IDAT\x08\xd7\x63\xf8\xcf\xc0\x00\x00\x03\x01\x01\x00",
        "PNG chunk IDAT of one red pixel",
        out,
    )?;
    show(
        b"IHDR\x00\x00\x00\x01\x00\x00\x00\x01\x08\x02\x00\x00\x00",
        "PNG chunk IHDR of one red pixel",
        out,
    )
}

// Runs and sequences of up to 65,536 bytes. 512 bytes are a block of most
// disks, and 16,384 bytes of zero are the array of 128 unused entries of a partition table.
fn show_sequences(out: &mut Output<impl Write>) -> io::Result<()> {
    show_run(0, 32, out)?;
    show_run(255, 32, out)?;
    show_rising(32, "32 bytes 00 to 1f", out)?;
    show(
        b"\x1f\x1e\x1d\x1c\x1b\x1a\x19\x18\x17\x16\x15\x14\x13\x12\x11\x10\x0f\x0e\x0d\x0c\x0b\x0a\x09\x08\x07\x06\x05\x04\x03\x02\x01\x00",
        "32 bytes 1f to 00",
        out,
    )?;
    show_rising(256, "256 bytes 00 to ff", out)?;
    show_run(0, 512, out)?;
    show_run(0, 4096, out)?;
    show_run(0, 16384, out)?;
    show_run(0, 65536, out)?;
    show_run(255, 65536, out)
}

// All vectors.
fn show_vectors(out: &mut Output<impl Write>) -> io::Result<()> {
    show(b"", "nothing", out)?;
    show_texts(&SHORT_TEXTS, out)?;
    show_texts(&LONG_TEXTS, out)?;
    show_few_bytes(out)?;
    show_png_chunks(out)?;
    show_sequences(out)?;
    show_array(out)
}

// The vectors, and then the input, unless the vectors could not be written.
fn run(input: &mut impl Read, out: &mut Output<impl Write>) -> io::Result<()> {
    show_vectors(out)?;
    let (sum, length) = sum_input(input)?;
    writeln!(out, "{sum:08x} {length} bytes of standard input")
}

// The exit status is always 0, as the usage line says.
fn main(rt: HostRuntime) {
    let mut out = Output::new(rt.stdout());
    let mut errors = rt.stderr();
    let ended = if console::no_arguments(&rt, USAGE.as_bytes(), &mut out, &mut errors) {
        run(&mut rt.stdin(), &mut out)
    } else {
        Ok(())
    };
    if let Some(failure) = out.failure(&ended) {
        console::complain_of(&mut errors, "sums", failure);
    }
}
