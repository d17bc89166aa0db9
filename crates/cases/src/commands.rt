// The commands that print a line: each is one card call, or a look at the image. A line has the command as the script has it, and the answer.
// The image is summed before and after a call, so that a refused one shows that it changed nothing.
ghost use Rattle.std.specs.Prelude.{Some, flat_map};
ghost use Rattle.cases.specs.Texts.{flags_text, unit_text, record_text};

use crate::say::Refused;
use crate::script::{Command, Line};
use crate::{bytes, say};
use console::Output;
use partition::{Flags, Partition};
use std::io::Write;
use std::{fmt, io};
use units::{Guid, Reason, Tail};

// The GUIDs here differ in their last byte alone: 0 is the disk's, and a partition has its slot's number there.
fn some_guid(last: u8) -> Guid {
    Guid {
        time_low: 0x5A3F_1C20,
        time_mid: 0x11E7,
        time_high: 0x4B6D,
        tail: Tail(0x9C, 0x04, 0x02, 0x42, 0xAC, 0x11, 0x00, last),
    }
}

// The type of a basic data partition.
fn basic_data() -> Guid {
    Guid {
        time_low: 0xEBD0_A0A2,
        time_mid: 0xB9E5,
        time_high: 0x4433,
        tail: Tail(0x87, 0xC0, 0x68, 0xB6, 0xB7, 0x26, 0x99, 0xC7),
    }
}

// The record of a put: slot, first and last block, flags, the name's units.
fn record(part_type_guid: Guid, line: Line<'_>) -> Partition {
    Partition {
        part_type_guid,
        part_guid: some_guid(line.byte(0)),
        first_lba: line.block(1),
        last_lba: line.block(2),
        flags: Flags::of_bits(line.number(3)),
        name: line.name(),
    }
}

fn put(img: &mut [u8], b: u64, part_type: Guid, line: Line<'_>) -> Result<(), Reason> {
    card::put(img, b, line.slot(0), record(part_type, line))
}

// The GUID with a last byte, or the nil GUID for 0.
fn given_guid(last: u8) -> Guid {
    match last {
        0 => Guid::nil(),
        _ => some_guid(last),
    }
}

// A put of a record with another slot's GUID, or the nil one: the GUID's last byte, slot, first and last block, flags.
fn put_bearing(img: &mut [u8], b: u64, line: Line<'_>) -> Result<(), Reason> {
    let p = Partition {
        part_type_guid: basic_data(),
        part_guid: given_guid(line.byte(0)),
        first_lba: line.block(2),
        last_lba: line.block(3),
        flags: Flags::of_bits(line.number(4)),
        name: [0; 36],
    };
    card::put(img, b, line.slot(1), p)
}

// A call that accepts or refuses: lay, a put of a record whose type is nil, one with a given GUID, clear, and else a put.
fn change(img: &mut [u8], b: u64, line: Line<'_>) -> Result<(), Reason> {
    match line.command() {
        Command::Lay => card::lay(img, b, some_guid(0)),
        Command::NilPut => put(img, b, Guid::nil(), line),
        Command::BearingPut => put_bearing(img, b, line),
        Command::Clear => card::clear(img, b, line.slot(0)),
        _ => put(img, b, basic_data(), line),
    }
}

pub fn judge(
    img: &mut [u8],
    b: u64,
    line: Line<'_>,
    out: &mut Output<impl Write>,
) -> io::Result<()> {
    let before = crc32::crc32(img);
    let v = change(img, b, line);
    say::verdict(v, crc32::crc32(img) == before, out)
}

// A payload write: how many bytes, the place, the slot, and the byte that they all are. At most 4,097 are written.
pub fn write(
    img: &mut [u8],
    b: u64,
    line: Line<'_>,
    out: &mut Output<impl Write>,
) -> io::Result<()> {
    let payload = [line.byte(3); 4097];
    let n = line.count(0);
    if n > payload.len() {
        return Ok(());
    }
    let before = crc32::crc32(img);
    let v = card::write_payload(img, b, line.slot(2), line.place(1), &payload[..n]);
    say::stored(v, crc32::crc32(img) == before, out)
}

pub fn used(img: &[u8], b: u64, out: &mut Output<impl Write>) -> io::Result<()> {
    match card::count_used(img, b) {
        Ok(n) => writeln!(out, ": {n}"),
        Err(w) => writeln!(out, ": {}", Refused(w)),
    }
}

// The next used slot after one.
pub fn after(img: &[u8], b: u64, line: Line<'_>, out: &mut Output<impl Write>) -> io::Result<()> {
    match card::next_used(img, b, line.slot(0)) {
        Ok(Some(next)) => writeln!(out, ": slot {}", next.0),
        Ok(None) => writeln!(out, ": none"),
        Err(w) => writeln!(out, ": {}", Refused(w)),
    }
}

// A used slot by its number among the used ones, counted from 0.
pub fn get(img: &[u8], b: u64, line: Line<'_>, out: &mut Output<impl Write>) -> io::Result<()> {
    match card::nth_used(img, b, line.slot(0).0) {
        Ok(Some(e)) => {
            let (first, last) = (e.partition.first_lba.0, e.partition.last_lba.0);
            writeln!(out, ": slot {}, blocks {first} to {last}", e.slot.0)
        }
        _ => writeln!(out, ": none"),
    }
}

// A record as `read` shows it: its blocks, its flags by their names, and the units of its name in hexadecimal digits.
#[derive(Clone, Copy)]
struct Whole(Partition);

impl fmt::Display for Whole {
    ghost output = { λ whole. Some (record_text whole.0) };

    fn fmt<W: fmt::Write>(&self, f: &mut fmt::Formatter<W>) -> fmt::Result {
        let (first, last) = (self.0.first_lba.0, self.0.last_lba.0);
        let (flags, name) = (Names(self.0.flags), Units(&self.0.name));
        write!(f, "blocks {first} to {last}{flags}, name{name}")
    }
}

// The units of a name in hexadecimal digits, each after a space.
#[derive(Clone, Copy)]
struct Units<'a>(&'a [u16]);

impl fmt::Display for Units<'_> {
    ghost output = { λ units. Some (flat_map unit_text units.0.now) };

    fn fmt<W: fmt::Write>(&self, f: &mut fmt::Formatter<W>) -> fmt::Result {
        for &unit in self.0 {
            write!(f, " {unit:04x}")?;
        }
        Ok(())
    }
}

// Flags by their names.
#[derive(Clone, Copy)]
struct Names(Flags);

impl fmt::Display for Names {
    ghost output = { λ names. Some (flags_text names.0) };

    fn fmt<W: fmt::Write>(&self, f: &mut fmt::Formatter<W>) -> fmt::Result {
        let flags = self.0;
        for (is_set, name) in [
            (flags.required, ", required"),
            (flags.no_block_io, ", no block I/O"),
            (flags.legacy_bootable, ", legacy bootable"),
        ] {
            if is_set {
                write!(f, "{name}")?;
            }
        }
        let (reserved, owner) = (flags.reserved, flags.owner);
        write!(f, ", reserved {reserved}, owner {owner}")
    }
}

// What a slot holds.
pub fn read(img: &[u8], b: u64, line: Line<'_>, out: &mut Output<impl Write>) -> io::Result<()> {
    match card::read_slot(img, b, line.slot(0)) {
        Ok(Some(p)) => writeln!(out, ": {}", Whole(p)),
        Ok(None) => writeln!(out, ": empty"),
        Err(w) => writeln!(out, ": {}", Refused(w)),
    }
}

// The check sum of the image.
pub fn digest(img: &[u8], out: &mut Output<impl Write>) -> io::Result<()> {
    writeln!(out, ": {:08x}", crc32::crc32(img))
}

// Whether so many bytes from a byte of a block on are all the same.
pub fn holds(img: &[u8], b: u64, line: Line<'_>, out: &mut Output<impl Write>) -> io::Result<()> {
    let at = bytes::place(line.block(2), b, line.count(1));
    if bytes::filled(img, at, line.count(0), line.byte(3)) {
        writeln!(out, ": yes")
    } else {
        writeln!(out, ": no")
    }
}
