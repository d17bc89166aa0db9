// Runs document 01's cases at the edges, P1 to P14, on the code, and prints what each call answers.
#![tactic(auto)]

ghost use Rattle.std.specs.Prelude.{Some, flat_map};
ghost use Rattle.console.specs.Answers.{spaced_byte};

use builder::HeaderBuilder;
use console::Output;
use mbr::ProtectiveMbr;
use partition::{Flags, Partition};
use std::io::Write;
use std::{fmt, io};
use units::{BytePlace, Guid, Lba, Refusal};

// Bytes in hexadecimal digits, each after a space.
#[derive(Clone, Copy)]
struct Bytes<'a>(&'a [u8]);

impl fmt::Display for Bytes<'_> {
    ghost output = { λ bytes. Some (flat_map spaced_byte bytes.0.now) };

    fn fmt<W: fmt::Write>(&self, f: &mut fmt::Formatter<W>) -> fmt::Result {
        for &byte in self.0 {
            write!(f, " {byte:02x}")?;
        }
        Ok(())
    }
}

// A case that is refused, by its number.
fn show_refused(case: &str, w: Refusal, out: &mut Output<impl Write>) -> io::Result<()> {
    writeln!(out, "{case} refused {}", w.number())
}

// What a builder builds: the usable blocks, where the array starts, and the entry count.
fn show_built(
    case: &str,
    s: HeaderBuilder,
    b: u64,
    out: &mut Output<impl Write>,
) -> io::Result<()> {
    match s.build(b) {
        Err(w) => show_refused(case, w, out),
        Ok(h) => {
            let (first, last) = (h.first_usable.0, h.last_usable.0);
            let (start, entries) = (h.part_start.0, h.num_parts);
            writeln!(
                out,
                "{case} usable {first} to {last}, array at {start}, entries {entries}"
            )
        }
    }
}

// A builder with a backup block, and no other field set.
fn with_backup(lba: u64) -> HeaderBuilder {
    HeaderBuilder::new(Guid::nil()).with_backup_lba(Lba(lba))
}

fn show_smallest(out: &mut Output<impl Write>) -> io::Result<()> {
    show_built("P1", with_backup(67), 512, out)?;
    show_built("P1 backup", with_backup(67).with_primary(false), 512, out)?;
    show_built("P2", with_backup(66), 512, out)?;
    show_built("P3", with_backup(11), 4096, out)?;
    show_built("P3 backup", with_backup(11).with_primary(false), 4096, out)?;
    show_built("P4", with_backup(10), 4096, out)?;
    show_built("P5", HeaderBuilder::new(Guid::nil()), 512, out)?;
    show_built("P5", HeaderBuilder::new(Guid::nil()), 4096, out)?;
    show_built("P6", with_backup(32), 512, out)
}

fn show_set(out: &mut Output<impl Write>) -> io::Result<()> {
    let far = with_backup(67).with_last_usable(Lba(100));
    show_built("P7", far, 512, out)?;
    show_built("P7 backup", far.with_primary(false), 512, out)?;
    show_built("P8", with_backup(67).with_num_parts(4), 512, out)?;
    show_built("P8", with_backup(67).with_num_parts(4), 4096, out)?;
    show_built("P9", with_backup(68).with_num_parts(129), 512, out)?;
    show_built("P9", with_backup(69).with_num_parts(129), 512, out)?;
    show_built("P10", with_backup(67).with_part_size(33554432), 512, out)?;
    show_built("P10", with_backup(67).with_part_size(33554431), 512, out)?;
    show_built("P10", with_backup(67).with_part_size(33554432), 4096, out)?;
    show_built("P10", with_backup(67).with_part_size(33554431), 4096, out)
}

// A partition of which the blocks alone count.
fn blocks(first: u64, last: u64) -> Partition {
    Partition {
        part_type_guid: Guid::nil(),
        part_guid: Guid::nil(),
        first_lba: Lba(first),
        last_lba: Lba(last),
        flags: Flags::of_bits(0),
        name: [0; 36],
    }
}

fn show_length(first: u64, last: u64, out: &mut Output<impl Write>) -> io::Result<()> {
    match blocks(first, last).sectors_len() {
        Err(w) => show_refused("P11", w, out),
        Ok(n) => writeln!(out, "P11 blocks {n}"),
    }
}

fn show_backup(len: usize, out: &mut Output<impl Write>) -> io::Result<()> {
    match header::find_backup_lba(len, 512) {
        Err(w) => show_refused("P12", w, out),
        Ok(lba) => writeln!(out, "P12 backup at block {}", lba.0),
    }
}

fn show_guid(out: &mut Output<impl Write>) -> io::Result<()> {
    let bytes = b"\x00\x01\x02\x03\x04\x05\x06\x07\x08\x09\x0A\x0B\x0C\x0D\x0E\x0F";
    match units::read_guid(bytes, BytePlace(0)) {
        Err(w) => show_refused("P13", w, out),
        Ok(g) => {
            let (low, mid, high, t) = (g.time_low, g.time_mid, g.time_high, g.tail);
            let tail = [t.0, t.1, t.2, t.3, t.4, t.5, t.6, t.7];
            writeln!(out, "P13 {low:08x} {mid:04x} {high:04x}{}", Bytes(&tail))
        }
    }
}

fn show_record(out: &mut Output<impl Write>) -> io::Result<()> {
    match ProtectiveMbr::new().partition(0) {
        Err(w) => show_refused("P14", w, out),
        Ok(p) => writeln!(out, "P14{}", Bytes(&p.to_bytes())),
    }
}

fn run(out: &mut Output<impl Write>) -> io::Result<()> {
    show_smallest(out)?;
    show_set(out)?;
    show_length(34, 34, out)?;
    show_length(5, 4, out)?;
    show_length(0, u64::MAX, out)?;
    show_backup(1535, out)?;
    show_backup(1600, out)?;
    show_guid(out)?;
    show_record(out)
}

fn main(rt: HostRuntime) {
    let mut out = Output::new(rt.stdout());
    let ended = run(&mut out);
    if let Some(failure) = out.failure(&ended) {
        console::complain_of(&mut rt.stderr(), "edges", failure);
    }
}
