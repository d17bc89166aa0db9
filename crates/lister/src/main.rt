// The lister: reads an image of at most 65,536 bytes from standard input, as a card with blocks of 512 bytes, and prints its used slots.
// Document 01, "The lister". A longer input prints `too long`, a refused one `refused` and its number.
// Input that cannot be read and output that cannot be written are said on standard error, and are no verdict.
#![tactic(auto)]

ghost use Rattle.std.specs.Prelude.{◌≡◌, false, ◌-◌, length};
ghost use Rattle.partition.specs.Array.{present};
ghost use Rattle.tables.specs.Lens.{tables};
ghost use Rattle.tables.specs.Check.{room_check};
ghost use Rattle.tables.specs.Check.{bad_slot};
ghost use Rattle.listing.specs.Listing.{present_slots};

use console::Output;
use partition::Partition;
use std::io;
use std::io::{Read, Write};
use units::Slot;

const USAGE: &str =
    "usage: lister < IMAGE (blocks of 512 bytes, 65,536 bytes at most; the exit status is always 0, so read what is printed)\n";

// How many bytes the longest image has.
const LONGEST: usize = 65536;

// A slot's line: the slot, its first and last block, and how many blocks it has. Past the card check a partition always has a count.
fn print_line(slot: Slot, p: Partition, out: &mut Output<impl Write>) -> io::Result<()> {
    let (slot, first, last) = (slot.0, p.first_lba.0, p.last_lba.0);
    match p.sectors_len() {
        Ok(n) => writeln!(out, "{slot} {first} {last} {n}"),
        Err(w) => writeln!(out, "{slot} {first} {last} refused {}", w.number()),
    }
}

// The line of a slot, if it is used; whether it is. A line that cannot be written leaves the answer as it is: `out` keeps that a write failed.
fn print_slot(img: &[u8], slot: Slot, out: &mut Output<impl Write>) -> bool
    requires { ((room_check 512 (length img.now)).number ≡ 0) × (bad_slot slot.0 ≡ false) }
    ensures { result ≡ present (tables 512 img.now).front.array 0 (slot.0 - 1) }
{
    match listing::inner::slot_found(img, 512, slot) {
        None => false,
        Some(p) => {
            let _ = print_line(slot, p, out);
            true
        }
    }
}

// The lines of the used slots, ascending; how many they are. That it is the card's count says that no slot was passed over.
fn print_slots(img: &[u8], out: &mut Output<impl Write>) -> u32
    requires { (room_check 512 (length img.now)).number ≡ 0 }
    ensures { result ≡ length (present_slots (tables 512 img.now)) }
{
    let mut lines = 0;
    for place in 0..128 {
        if print_slot(img, units::inner::slot_at(place), out) {
            lines += 1;
        }
    }
    lines
}

fn list(img: &[u8], out: &mut Output<impl Write>) -> io::Result<()> {
    match card::check(img, 512) {
        Err(w) => writeln!(out, "refused {}", w.what.number()),
        Ok(()) => {
            writeln!(out, "slot first last blocks")?;
            let lines = print_slots(img, out);
            writeln!(out, "used {lines}")
        }
    }
}

// Reads the image to its end before anything is printed.
fn run(input: &mut impl Read, out: &mut Output<impl Write>) -> io::Result<()> {
    let mut space = [0; LONGEST + 1];
    let n = console::read_input(input, &mut space)?;
    if n > LONGEST {
        return writeln!(out, "too long");
    }
    list(&space[..n], out)
}

// The exit status is always 0, as the usage line says.
fn main(rt: HostRuntime) {
    let mut out = Output::new(rt.stdout());
    let mut errors = rt.stderr();
    let ended = if console::no_arguments(&rt, USAGE.as_bytes(), &mut out, &mut errors) {
        run(&mut rt.stdin(), &mut out)
    } else {
        Ok(())
    };
    if let Some(failure) = out.failure(&ended) {
        console::complain_of(&mut errors, "lister", failure);
    }
}
