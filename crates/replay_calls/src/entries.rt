// The steps of partition entries: the array that a header names, entries that are stored, and lengths.
ghost use Rattle.std.specs.Prelude.{◌+◌, ◌≤◌};

use crate::tape::Args;
use crate::told::Answer;
use header::Header;
use partition::{Flags, Partition};
use units::{BytePlace, Guid, Lba, Refusal, Slot};

// The record in 128 bytes of the arguments. Nothing of its name is cleared: what stands after a zero unit is written, too.
fn record_at(args: &Args, at: usize) -> Partition
    requires { at + 128 ≤ 256 }
{
    Partition {
        part_type_guid: units::inner::guid_at(&args.0, at),
        part_guid: units::inner::guid_at(&args.0, at + 16),
        first_lba: Lba(args.u64(at + 32)),
        last_lba: Lba(args.u64(at + 40)),
        flags: Flags::of_bits(args.u64(at + 48)),
        name: partition::inner::units_at(&args.0, at + 56),
    }
}

// The sum of rows with one row more: an entry's slot, and its 128 bytes.
fn with_row(sum: u32, slot: Slot, p: Partition) -> u32 {
    let mut row = [0; 132];
    row[..4].copy_from_slice(&slot.0.to_le_bytes());
    let _ = p.write_bytes(&mut row[4..]);
    crc32::crc32_next(sum, &row)
}

// The sum of the present entries, one row after the other. An image of 65,536 bytes has no more than 512.
fn sum_of_rows(img: &[u8], h: Header, b: u64) -> u32 {
    let mut sum = crc32::FRESH;
    let mut after = Slot(0);
    for _ in 0..512 {
        let Ok(Some(slot)) = partition::next_partition(img, h, b, after) else {
            return sum;
        };
        let Ok(Some(p)) = partition::read_partition(img, h, b, slot) else {
            return sum;
        };
        sum = with_row(sum, slot, p);
        after = slot;
    }
    sum
}

// The number of an answer: 0 where it accepts.
fn number_of<T: Drop>(answer: Result<T, Refusal>) -> u32 {
    match answer {
        Ok(_) => 0,
        Err(w) => w.number(),
    }
}

// Three calls read an array, and where one refuses the others are to refuse alike: else the number is 255, which no call has.
fn alike(number: u32, img: &[u8], h: Header, b: u64) -> u32 {
    if number_of(partition::next_partition(img, h, b, Slot(0))) != number {
        return 255;
    }
    if number_of(partition::read_partition(img, h, b, Slot(1))) != number {
        return 255;
    }
    number
}

pub fn read_array(img: &[u8], args: &Args) -> Answer {
    let b = args.u64(0);
    let h = header::inner::header_at(&args.0, 0);
    match partition::count_partitions(img, h, b) {
        Err(w) => Answer::numbered(alike(w.number(), img, h, b)),
        Ok(n) => Answer::accepted()
            .with_u32(1, n)
            .with_u32(5, sum_of_rows(img, h, b)),
    }
}

pub fn write_entry(img: &mut [u8], args: &Args) -> Answer {
    let index = args.u64(0);
    let start = Lba(args.u64(8));
    let b = args.u64(16);
    let size = args.u32(24);
    let r = record_at(args, 28).write_to_device(img, index, start, b, size);
    Answer::stored(r, img)
}

pub fn write_zeros(img: &mut [u8], args: &Args) -> Answer {
    let index = args.u64(0);
    let count = args.u64(8);
    let start = Lba(args.u64(16));
    let b = args.u64(24);
    let size = args.u32(32);
    let r = Partition::write_zero_entries_to_device(img, index, count, start, b, size);
    Answer::stored(r, img)
}

// A number and eight bytes at a place, of which a refusal leaves the eight zero.
fn with_length(out: Answer, at: usize, r: Result<u64, Refusal>) -> Answer
    requires { at + 9 ≤ 128 }
{
    match r {
        Ok(n) => out.with_u64(at + 1, n),
        Err(w) => out.with_byte(at, w.number()),
    }
}

fn with_place(out: Answer, at: usize, r: Result<BytePlace, Refusal>) -> Answer
    requires { at + 9 ≤ 128 }
{
    match r {
        Ok(p) => out.with_u64(at + 1, p.0 as u64),
        Err(w) => out.with_byte(at, w.number()),
    }
}

pub fn lengths(args: &Args) -> Answer {
    let p = Partition {
        part_type_guid: Guid::nil(),
        part_guid: Guid::nil(),
        first_lba: Lba(args.u64(0)),
        last_lba: Lba(args.u64(8)),
        flags: Flags::of_bits(0),
        name: [0; 36],
    };
    let b = args.u64(16);
    let sectors = with_length(Answer::accepted(), 0, p.sectors_len());
    let bytes = with_length(sectors, 9, p.bytes_len(b));
    with_place(bytes, 18, p.bytes_start(b))
}

// The sum of a lent buffer, once the record's bytes are in it. Its bytes are not zero before, so that it shows which of them the call leaves alone.
pub fn entry_bytes(args: &Args) -> Answer {
    let mut space = [0xA5; 65536];
    let out = &mut space[..usize::from(args.u16(0))];
    let _ = record_at(args, 2).write_bytes(out);
    Answer::accepted().with_sum(0, out)
}
