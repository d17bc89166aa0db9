// Lends what other programs pass by value, and prints the answers: a builder to each of its setters (builders.rt), and rows of four records to `file_read_partitions`.
// Of a row it prints what each place then holds: a slot, its first and its last block.
#![tactic(auto)]

mod builders;
mod laws; // laws.rt: the laws over what is lent, each at one call
mod lent; // lent.rt: a caller for each setter

ghost use Rattle.units.specs.Meanings.{means};
ghost use Rattle.std.specs.Prelude.{◌≡◌, ◌≤◌};
ghost use Rattle.rows.specs.Row.{partitions_read, row_outcome, RowEnds};
ghost use Rattle.lent_demo.specs.Marked.{marked_row};

use console::Output;
use header::{Header, Revision};
use partition::{Flags, Partition};
use rows::Entry;
use std::io;
use std::io::Write;
use units::{Guid, Lba, Refusal, Slot, Tail};

// The answer of a reading, and the row that was lent to it.
#[derive(Clone, Copy)]
pub struct Reading {
    pub answer: Result<u32, Refusal>,
    pub row: [Entry; 4],
}

fn reading_of(answer: Result<u32, Refusal>, row: [Entry; 4]) -> Reading
    ensures { result ≡ record { answer = answer; row = row } }
{
    Reading { answer, row }
}

// A row whose places are marked, so that it shows which of them a reading fills.
fn marked_row() -> [Entry; 4]
    ensures { result ≡ marked_row }
{
    let e = Entry {
        slot: Slot(99),
        partition: Partition::zero(),
    };
    [e; 4]
}

// Lends a marked row.
fn read_four(img: &[u8], h: Header, b: u64) -> Reading
    ensures { RowEnds (row_outcome (partitions_read img.now h b 4) marked_row) (means result.answer) result.row }
{
    let mut row = marked_row();
    let answer = rows::file_read_partitions(img, h, b, &mut row);
    reading_of(answer, row)
}

fn show_answer(answer: Result<u32, Refusal>, out: &mut Output<impl Write>) -> io::Result<()> {
    match answer {
        Err(w) => writeln!(out, "refused {}", w.number()),
        Ok(n) => writeln!(out, "present {n}"),
    }
}

fn show(case: &str, r: Reading, out: &mut Output<impl Write>) -> io::Result<()> {
    write!(out, "{case}: ")?;
    show_answer(r.answer, out)?;
    for e in r.row {
        let (first, last) = (e.partition.first_lba.0, e.partition.last_lba.0);
        writeln!(out, "  {} {first} {last}", e.slot.0)?;
    }
    Ok(())
}

// A partition of a type that only its first field tells from the nil type.
fn blocks(kind: u32, first: u64, last: u64) -> Partition {
    Partition {
        part_type_guid: Guid {
            time_low: kind,
            time_mid: 0,
            time_high: 0,
            tail: Tail(0, 0, 0, 0, 0, 0, 0, 0),
        },
        part_guid: Guid::nil(),
        first_lba: Lba(first),
        last_lba: Lba(last),
        flags: Flags::of_bits(0),
        name: [0; 36],
    }
}

// A header that names an array of eight entries at block 2, with a check sum.
fn header_of(sum: u32) -> Header {
    Header {
        revision: Revision(1, 0),
        header_size_le: 92,
        crc32: 0,
        reserved: 0,
        current_lba: Lba(1),
        backup_lba: Lba(7),
        first_usable: Lba(4),
        last_usable: Lba(6),
        disk_guid: Guid::nil(),
        part_start: Lba(2),
        num_parts: 8,
        part_size: 128,
        crc32_parts: sum,
    }
}

// The same with the sum that the array has.
fn header_for(img: &[u8; 2048]) -> Header {
    match header_of(0).partentry_checksum(img, 512) {
        Ok(sum) => header_of(sum),
        Err(_w) => header_of(0),
    }
}

// Stores an entry in a slot of the array.
fn put(
    img: &mut [u8; 2048],
    slot: u64,
    p: Partition,
    out: &mut Output<impl Write>,
) -> io::Result<()>
    requires { 1 ≤ slot }
{
    match p.write_to_device(img, slot - 1, Lba(2), 512, 128) {
        Ok(_n) => Ok(()),
        Err(w) => show_answer(Err(w), out),
    }
}

// Lends a row for one reading, and shows it.
fn show_reading(
    case: &str,
    img: &[u8],
    h: Header,
    b: u64,
    out: &mut Output<impl Write>,
) -> io::Result<()> {
    show(case, read_four(img, h, b), out)
}

fn run(out: &mut Output<impl Write>) -> io::Result<()> {
    builders::show(out)?;
    let mut img = [0; 2048];
    put(&mut img, 2, blocks(1, 34, 40), out)?;
    put(&mut img, 5, blocks(0, 41, 41), out)?;
    put(&mut img, 8, blocks(1, 50, 60), out)?;
    let three = "three entries, one of the nil type";
    show_reading(three, &img, header_for(&img), 512, out)?;
    put(&mut img, 3, blocks(1, 61, 70), out)?;
    let four = "four entries, which just fill the row";
    show_reading(four, &img, header_for(&img), 512, out)?;
    put(&mut img, 7, blocks(1, 71, 80), out)?;
    show_reading("five entries", &img, header_for(&img), 512, out)?;
    show_reading("another check sum", &img, header_of(0), 512, out)?;
    show_reading("another block size", &img, header_for(&img), 1000, out)
}

fn main(rt: HostRuntime) {
    let mut out = Output::new(rt.stdout());
    let ended = run(&mut out);
    if let Some(failure) = out.failure(&ended) {
        console::complain_of(&mut rt.stderr(), "lent_demo", failure);
    }
}
