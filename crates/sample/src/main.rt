// Writes a sample card of 128 blocks of 512 bytes to standard output: laid, with a map, its roads and notes in slots 1 to 3.
// The file `stdout` beside the folder `src` was made by tests/example/make_card.py, which shares no code with this library.
// Output that cannot be written is said on standard error.
#![tactic(auto)]

use console::Output;
use partition::{Flags, Partition};
use std::io;
use std::io::Write;
use units::{Guid, Lba, Slot, Tail};

const USAGE: &str =
    "usage: sample > IMAGE (65,536 bytes; the exit status is always 0, so read what is printed on standard error)\n";

// The GUIDs of the sample differ in their last byte alone.
fn sample_guid(last: u8) -> Guid {
    Guid {
        time_low: 0x5A3F_1C20,
        time_mid: 0x11E7,
        time_high: 0x4B6D,
        tail: Tail(0x9C, 0x04, 0x02, 0x42, 0xAC, 0x11, 0x00, last),
    }
}

// The type of a basic data partition, which tablets mount.
fn basic_data() -> Guid {
    Guid {
        time_low: 0xEBD0_A0A2,
        time_mid: 0xB9E5,
        time_high: 0x4433,
        tail: Tail(0x87, 0xC0, 0x68, 0xB6, 0xB7, 0x26, 0x99, 0xC7),
    }
}

// The units of a name, cut at 36.
fn name_of(text: &str) -> [u16; 36] {
    let mut name = [0; 36];
    for (unit, letter) in name.iter_mut().zip(text.encode_utf16()) {
        *unit = letter;
    }
    name
}

// The record of a slot's partition.
fn record(slot: u8, from: u64, to: u64, text: &str) -> Partition {
    Partition {
        part_type_guid: basic_data(),
        part_guid: sample_guid(slot),
        first_lba: Lba(from),
        last_lba: Lba(to),
        flags: Flags::of_bits(0),
        name: name_of(text),
    }
}

fn put(img: &mut [u8], slot: u8, from: u64, to: u64, text: &str) {
    let _ = card::put(img, 512, Slot(slot as u32), record(slot, from, to, text));
}

fn fill(img: &mut [u8]) {
    let _ = card::lay(img, 512, sample_guid(0));
    put(img, 1, 34, 65, "map 2026-11-15");
    put(img, 2, 66, 85, "roads");
    put(img, 3, 86, 94, "notes");
}

// How many slots a card has in use, or 0 of a card that is refused.
fn used(img: &[u8]) -> u32 {
    match card::count_used(img, 512) {
        Ok(n) => n,
        Err(_w) => 0,
    }
}

// Writes the card if it holds its three slots.
fn run(out: &mut Output<impl Write>, errors: &mut impl Write) -> io::Result<()> {
    let mut img = [0; 65536];
    fill(&mut img);
    if used(&img) == 3 {
        out.write_all(&img)
    } else {
        console::complain(errors, b"sample: a call was refused\n");
        Ok(())
    }
}

// The exit status is always 0, as the usage line says.
fn main(rt: HostRuntime) {
    let mut out = Output::new(rt.stdout());
    let mut errors = rt.stderr();
    let ended = if console::no_arguments(&rt, USAGE.as_bytes(), &mut out, &mut errors) {
        run(&mut out, &mut errors)
    } else {
        Ok(())
    };
    if let Some(failure) = out.failure(&ended) {
        console::complain_of(&mut errors, "sample", failure);
    }
}
