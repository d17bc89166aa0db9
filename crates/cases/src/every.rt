// The numbers of all calls that start with the card check. They are given slot 0 and a nil type, so that a call that does not check first answers 18.
use crate::say;
use console::Output;
use partition::Partition;
use std::io;
use std::io::Write;
use units::{BytePlace, Reason, Slot};

// The number alone: the place is left out.
fn number_in(r: Reason) -> u32 {
    r.what.number()
}

fn number_of<T: Drop>(answer: Result<T, Reason>) -> u32 {
    match answer {
        Ok(_) => 0,
        Err(w) => number_in(w),
    }
}

fn check(img: &[u8], b: u64) -> u32 {
    number_of(card::check(img, b))
}

fn put(img: &mut [u8], b: u64) -> u32 {
    number_of(card::put(img, b, Slot(0), Partition::zero()))
}

fn clear(img: &mut [u8], b: u64) -> u32 {
    number_of(card::clear(img, b, Slot(0)))
}

fn payload(img: &mut [u8], b: u64) -> u32 {
    number_of(card::write_payload(img, b, Slot(0), BytePlace(0), b"x"))
}

fn count(img: &[u8], b: u64) -> u32 {
    number_of(card::count_used(img, b))
}

fn next(img: &[u8], b: u64) -> u32 {
    number_of(card::next_used(img, b, Slot(0)))
}

fn read(img: &[u8], b: u64) -> u32 {
    number_of(card::read_slot(img, b, Slot(0)))
}

fn nth(img: &[u8], b: u64) -> u32 {
    number_of(card::nth_used(img, b, 0))
}

fn changes(img: &mut [u8], b: u64, out: &mut Output<impl Write>) -> io::Result<()> {
    write!(out, ": check {}", check(img, b))?;
    write!(out, ", put {}", put(img, b))?;
    write!(out, ", clear {}", clear(img, b))?;
    write!(out, ", payload {}", payload(img, b))
}

fn looks(img: &[u8], b: u64, out: &mut Output<impl Write>) -> io::Result<()> {
    write!(out, ", count {}", count(img, b))?;
    write!(out, ", next {}", next(img, b))?;
    write!(out, ", read {}", read(img, b))?;
    write!(out, ", nth {}", nth(img, b))
}

pub fn call(img: &mut [u8], b: u64, out: &mut Output<impl Write>) -> io::Result<()> {
    let before = crc32::crc32(img);
    changes(img, b, out)?;
    looks(img, b, out)?;
    writeln!(out, ", {}", say::unchanged(crc32::crc32(img) == before))
}
