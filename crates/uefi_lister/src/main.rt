// The lister for tables of other makers: reads an image of at most 65,536 bytes from standard input, with blocks of 512 bytes, and prints the used slots of its primary table, by UEFI.
// Document 02, 9/13, in the lister's form, with the name at the end of a line. Its last line says which reading edition accepts the table. A longer input prints `too long`, a refused
// one `refused` and its number. Input that cannot be read and output that cannot be written are said on standard error, and are no verdict.
#![tactic(auto)]

ghost use Rattle.std.specs.Prelude.{◌≡◌, Some};
ghost use Rattle.std.specs.List.{position, before_first};
ghost use Rattle.rows.specs.Plans.{Made};
ghost use Rattle.uefi_lister.specs.Texts.{is_zero, letter, name_text};

use console::Output;
use partition::Partition;
use rows::inner::Plan;
use std::io::{Read, Write};
use std::{fmt, io};
use units::Slot;

const USAGE: &str =
    "usage: uefi_lister < IMAGE (blocks of 512 bytes, 65,536 bytes at most; the exit status is always 0, so read what is printed)\n";

// How many bytes the longest image has.
const LONGEST: usize = 65536;

// The letter of a unit of a name. Half of a pair of units, and what is no letter of a line, is `?`.
fn letter(unit: u16) -> char
    ensures { result ≡ letter unit }
{
    match char::from_u32(u32::from(unit)) {
        Some(c) if !c.is_control() => c,
        _ => '?',
    }
}

// Where the first zero unit of a name stands.
fn zero_at(name: &[u16]) -> Option<usize>
    ensures { result ≡ position is_zero name.now }
{
    name.iter().position(|unit| *unit == 0)
}

// The units of a name before its first zero unit, or all where none is zero.
fn before_zero(name: &[u16]) -> &[u16]
    ensures { result.now ≡ before_first is_zero name.now }
{
    match zero_at(name) {
        Some(n) => &name[..n],
        None => name,
    }
}

// A name, which is printed up to its first zero unit.
#[derive(Clone, Copy)]
struct Name([u16; 36]);

impl fmt::Display for Name {
    ghost output = { λ name. Some (name_text name.0) };

    fn fmt<W: fmt::Write>(&self, f: &mut fmt::Formatter<W>) -> fmt::Result {
        for &unit in before_zero(&self.0) {
            write!(f, "{}", letter(unit))?;
        }
        Ok(())
    }
}

// How many blocks a partition has, or `-` where its last block comes before its first one or 64 bits cannot count them.
fn print_blocks(p: Partition, out: &mut Output<impl Write>) -> io::Result<()> {
    match p.sectors_len() {
        Ok(n) => write!(out, "{n}"),
        Err(_) => write!(out, "-"),
    }
}

// A slot's line: the slot, its first and last block, how many blocks it has, and its name.
fn print_line(slot: Slot, p: Partition, out: &mut Output<impl Write>) -> io::Result<()> {
    let (slot, first, last) = (slot.0, p.first_lba.0, p.last_lba.0);
    write!(out, "{slot} {first} {last} ")?;
    print_blocks(p, out)?;
    writeln!(out, " {}", Name(p.name))
}

// The lines of the entries that a plan lists, ascending.
fn print_entries(img: &[u8], p: Plan, out: &mut Output<impl Write>) -> io::Result<()>
    requires { Made img.now p }
{
    let mut at = Slot(0);
    for _ in 0..p.present {
        at = rows::inner::next_slot(img, p, at);
        let e = rows::inner::entry_in(img, p, at);
        print_line(e.slot, e.partition, out)?;
    }
    Ok(())
}

// Whether the first edition accepts the primary table, header and array.
fn first_accepts(img: &[u8]) -> bool {
    match header::read_primary_header(img, 512) {
        Err(_) => false,
        Ok(h) => match partition::count_partitions(img, h, 512) {
            Err(_) => false,
            Ok(_) => true,
        },
    }
}

// Which edition accepts the table, in the last line.
fn edition(first: bool, second: bool) -> &'static str {
    match (first, second) {
        (true, true) => "both",
        (true, false) => "first",
        (false, true) => "second",
        (false, false) => "none",
    }
}

fn list(img: &[u8], out: &mut Output<impl Write>) -> io::Result<()> {
    let first = first_accepts(img);
    let p = uefi::inner::plan_primary(img, 512);
    match p.answer() {
        Err(w) => {
            writeln!(out, "refused {}", w.number())?;
            writeln!(out, "edition {}", edition(first, false))
        }
        Ok(n) => {
            writeln!(out, "slot first last blocks name")?;
            print_entries(img, p, out)?;
            writeln!(out, "used {n}")?;
            writeln!(out, "edition {}", edition(first, true))
        }
    }
}

// Reads the image to its end before anything is printed.
fn run(input: &mut impl Read, out: &mut Output<impl Write>) -> io::Result<()> {
    let mut space = [0; LONGEST + 1];
    let n = console::read_input(input, &mut space)?;
    if n > LONGEST {
        return writeln!(out, "too long");
    }
    list(&space[..n], out)
}

// The exit status is always 0, as the usage line says.
fn main(rt: HostRuntime) {
    let mut out = Output::new(rt.stdout());
    let mut errors = rt.stderr();
    let ended = if console::no_arguments(&rt, USAGE.as_bytes(), &mut out, &mut errors) {
        run(&mut rt.stdin(), &mut out)
    } else {
        Ok(())
    };
    if let Some(failure) = out.failure(&ended) {
        console::complain_of(&mut errors, "uefi_lister", failure);
    }
}
