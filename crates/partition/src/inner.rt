// Leaves for our own crates: each `requires` is what its caller has tested. No public calls.
ghost use Rattle.std.specs.Prelude.{◌≡◌, ◌==◌, not, true, false, List, ℕ, ◌+◌, ◌*◌, ◌≤◌, ◌<◌, ◌^◌, length, replicate, position, ◌-◌, take};
ghost use Rattle.std.proofs.lemmas.List.Edits.{sets};
ghost use Rattle.units.specs.Bytes.{part, all_zero};
ghost use Rattle.units.specs.Places.{good_size, inside_or_empty};
ghost use Rattle.units.specs.Meanings.{means};
ghost use Rattle.partition.specs.Flags.{bit, flags_of, joined, too_wide, Joins};
ghost use Rattle.partition.specs.Format.{first_at, last_at, nil_type_at, units_at, unit_bytes, first_zero, cleared, entry_at, entry_bytes, tidied, fitted};
ghost use Rattle.partition.specs.Device.{run_place, device_sizes, device_place, entry_device};
ghost use Rattle.partition.specs.Array.{present, present_from, array_found, partition_found};
ghost use Rattle.partition.specs.Meanings.{found_of, slots_of};

use crate::{Flags, Partition};
use header::Header;
use units::inner::Field;
use units::{BytePlace, Lba, Refusal, Slot};

// Where the entry at array place k stands, in the array at a byte place.
pub fn entry_place(array: BytePlace, k: usize) -> BytePlace
    requires { array.0 + 128 * k < 2 ^ 64 }
    ensures { result.0 ≡ array.0 + 128 * k }
{
    BytePlace(array.0 + 128 * k)
}

// Whether the entry at a place has the nil type.
pub fn nil_type_at(s: &[u8], at: BytePlace) -> bool
    requires { at.0 + 128 ≤ length s.now }
    ensures { result ≡ nil_type_at s.now at.0 }
{
    units::inner::all_zero(s, at.0, 16)
}

// Where the partition GUID of the entry at a place stands.
pub fn guid_place(at: BytePlace) -> BytePlace
    requires { at.0 + 16 < 2 ^ 64 }
    ensures { result.0 ≡ at.0 + 16 }
{
    BytePlace(at.0 + 16)
}

// The first block of the entry at a place.
pub fn first_at(s: &[u8], at: BytePlace) -> Lba
    requires { at.0 + 128 ≤ length s.now }
    ensures { result.0 ≡ first_at s.now at.0 }
{
    Lba(u64::get(s, at.0 + 32))
}

// The last block of the entry at a place.
pub fn last_at(s: &[u8], at: BytePlace) -> Lba
    requires { at.0 + 128 ≤ length s.now }
    ensures { result.0 ≡ last_at s.now at.0 }
{
    Lba(u64::get(s, at.0 + 40))
}

fn bit(yes: bool) -> u64
    ensures { (result ≡ bit yes) × (result ≤ 1) }
{
    if yes { 1 } else { 0 }
}

// The 64 bits of flags whose reserved part has its place.
pub fn joined(f: Flags) -> u64
    requires { Joins f }
    ensures { result ≡ joined f }
{
    let low = bit(f.required) + 2 * bit(f.no_block_io) + 4 * bit(f.legacy_bootable);
    low + 8 * f.reserved + 0x1_0000_0000_0000 * (f.owner as u64)
}

// Whether the reserved part of flags needs more than 45 bits: 28.
pub fn too_wide(f: Flags) -> bool
    ensures { result ≡ too_wide f }
{
    0x2000_0000_0000 <= f.reserved
}

// The 36 units of a name, as they stand.
pub fn units_at(s: &[u8], at: usize) -> [u16; 36]
    requires { at + 72 ≤ length s.now }
    ensures { result ≡ units_at 36 s.now at }
{
    let mut name = [0u16; 36];
    for (i, u) in name.iter_mut().enumerate() {
        *u = u16::get(s, at + 2 * i);
    }
    name
}

// The place of a name's first zero unit.
fn zero_unit(name: &[u16; 36]) -> Option<usize>
    ensures { result ≡ position (λ (u : ℕ). u == 0) name.now }
{
    name.iter().position(|u| *u == 0)
}

// The same, or 36 where there is none.
fn first_zero(name: [u16; 36]) -> usize
    ensures { result ≡ first_zero name }
{
    zero_unit(&name).unwrap_or(36)
}

// The name with each unit after its first zero cleared.
pub fn clear_name(name: [u16; 36]) -> [u16; 36]
    ensures { result ≡ cleared name }
{
    let mut out = name;
    out[first_zero(name)..].fill(0);
    out
}

// The record in the 128 bytes at place at, its name cleared after the first zero unit.
pub fn entry_at(s: &[u8], at: usize) -> Partition
    requires { at + 128 ≤ length s.now }
    ensures { result ≡ entry_at s.now at }
{
    let part_type_guid = units::inner::guid_at(s, at);
    let part_guid = units::inner::guid_at(s, at + 16);
    let first_lba = Lba(u64::get(s, at + 32));
    let last_lba = Lba(u64::get(s, at + 40));
    let flags = Flags::of_bits(u64::get(s, at + 48));
    let name = clear_name(units_at(s, at + 56));
    Partition {
        part_type_guid,
        part_guid,
        first_lba,
        last_lba,
        flags,
        name,
    }
}

fn put_units(s: &mut [u8], at: usize, name: [u16; 36])
    requires { at + 72 ≤ length s.old }
    ensures { s.new ≡ sets s.old at (unit_bytes name) }
{
    for (i, u) in name.iter().enumerate() {
        (*u).put(s, at + 2 * i);
    }
}

// The record's 128 bytes, stored at place at.
pub fn put_entry(s: &mut [u8], at: usize, p: Partition)
    requires { Joins p.flags × (at + 128 ≤ length s.old) }
    ensures { s.new ≡ sets s.old at (entry_bytes p) }
{
    let t = p.part_type_guid;
    let g = p.part_guid;
    let first = p.first_lba;
    let last = p.last_lba;
    let flags = p.flags;
    let name = p.name;
    units::inner::put_guid(s, at, t);
    units::inner::put_guid(s, at + 16, g);
    first.0.put(s, at + 32);
    last.0.put(s, at + 40);
    joined(flags).put(s, at + 48);
    put_units(s, at + 56, name);
}

// The 128 bytes of a record as put stores it: its name cleared, and no reserved flag.
pub fn tidied_bytes(p: Partition) -> [u8; 128]
    ensures { (result ≡ entry_bytes (tidied p)) × (length result ≡ 128) }
{
    let name = clear_name(p.name);
    let tidy = Partition {
        flags: Flags {
            reserved: 0,
            ..p.flags
        },
        name,
        ..p
    };
    let mut e = [0u8; 128];
    put_entry(&mut e, 0, tidy);
    e
}

// src, cut or filled with zeros to the length of out.
pub fn fit(out: &mut [u8], src: &[u8])
    ensures { out.new ≡ fitted (length out.old) src.now }
{
    let n = out.len().min(src.len());
    out[..n].copy_from_slice(&src[..n]);
    out[n..].fill(0);
}

// The record's 128 bytes, cut or filled with zeros to the length of out.
pub fn put_fitted(out: &mut [u8], p: Partition)
    requires { Joins p.flags }
    ensures { out.new ≡ fitted (length out.old) (entry_bytes p) }
{
    let mut bytes = [0u8; 128];
    put_entry(&mut bytes, 0, p);
    fit(out, &bytes);
}

// The place `offset` bytes after a place, if `n` bytes from there on end below 2^64: 3.
fn run_place(base: BytePlace, offset: usize, n: usize) -> Result<BytePlace, Refusal>
    ensures { means result ≡ run_place base.0 offset n }
{
    let at = base.after(offset)?;
    let _end = at.after(n)?;
    Ok(at)
}

// The sizes of a block and of an entry: 1, 7.
fn device_sizes(b: u64, entry_size: u32) -> Result<(), Refusal>
    ensures { means result ≡ device_sizes b entry_size }
{
    if !units::good_block_size(b) {
        return Err(Refusal::BadBlockSize);
    }
    if entry_size == 0 || 4096 < entry_size {
        return Err(Refusal::BadEntrySize);
    }
    Ok(())
}

// Where entry `index` of an array that starts at a block stands, if `count` entries from there on end below 2^64: 3.
fn device_run(
    start: Lba,
    index: u64,
    b: u64,
    entry_size: u32,
    count: u64,
) -> Result<BytePlace, Refusal>
    requires { (good_size b ≡ true) × (1 ≤ entry_size) }
    ensures { means result ≡ run_place (start.0 * b) (index * entry_size) (count * entry_size) }
{
    let size = entry_size as u64;
    let most = 0xFFFF_FFFF_FFFF_FFFF / size;
    if most < index || most < count {
        return Err(Refusal::Overflow);
    }
    let offset = index * size;
    let n = count * size;
    let base = start.place(b)?;
    run_place(base, offset as usize, n as usize)
}

// The same after the sizes: 1, 7, 3.
pub fn device_place(
    start: Lba,
    index: u64,
    b: u64,
    entry_size: u32,
    count: u64,
) -> Result<BytePlace, Refusal>
    ensures { means result ≡ device_place start.0 index b entry_size count }
{
    device_sizes(b, entry_size)?;
    device_run(start, index, b, entry_size, count)
}

// The same of one entry with its flags: 1, 7, 28, 3.
pub fn entry_device(
    f: Flags,
    start: Lba,
    index: u64,
    b: u64,
    entry_size: u32,
) -> Result<BytePlace, Refusal>
    ensures { means result ≡ entry_device f start.0 index b entry_size }
{
    device_sizes(b, entry_size)?;
    if too_wide(f) {
        return Err(Refusal::ReservedFlag);
    }
    device_run(start, index, b, entry_size, 1)
}

// Whether the entry at place at is present: not 128 zero bytes. They are read where they stand.
pub fn is_present(s: &[u8], at: usize) -> bool
    requires { at + 128 ≤ length s.now }
    ensures { result ≡ not (all_zero (part s.now at 128)) }
{
    !units::inner::all_zero(s, at, 128)
}

// How many of the count entries from place at on are present.
pub fn count_present(s: &[u8], at: usize, count: u32) -> u32
    requires { inside_or_empty (length s.now) at (count * 128) ≡ true }
    ensures { result ≡ length (present_from s.now at 0 count) }
{
    let mut n = 0;
    for k in 0..count {
        if is_present(s, at + (k as usize) * 128) {
            n += 1;
        }
    }
    n
}

// The record of the entry at place at, if it is present.
pub fn entry_if_present(s: &[u8], at: usize) -> Option<Partition>
    requires { at + 128 ≤ length s.now }
    ensures { found_of result ≡ record { present = not (all_zero (part s.now at 128)); partition = entry_at s.now at } }
{
    if is_present(s, at) {
        Some(entry_at(s, at))
    } else {
        None
    }
}

// The first present slot after a slot, among the count entries from place at on.
pub fn next_present(s: &[u8], at: usize, count: u32, after: Slot) -> Option<Slot>
    requires { inside_or_empty (length s.now) at (count * 128) ≡ true }
    ensures { slots_of result ≡ take 1 (present_from s.now at after.0 (count - after.0)) }
{
    for k in after.0..count {
        if is_present(s, at + (k as usize) * 128) {
            return Some(units::inner::slot_at(k));
        }
    }
    None
}

// Where the array that a header names stands, once its sum is right: 1, 3, 7, 2, 6.
pub fn find_array(img: &[u8], h: Header, b: u64) -> Result<BytePlace, Refusal>
    ensures { means result ≡ array_found img.now h b }
{
    let at = h.part_start.place(b)?;
    if h.part_size != 128 {
        return Err(Refusal::BadEntrySize);
    }
    let sum = h.partentry_checksum(img, b)?;
    if sum != h.crc32_parts {
        return Err(Refusal::PartsCrc);
    }
    Ok(at)
}

// Where a slot's entry stands in the array that a header names: 1, 3, 7, 2, 6, 18.
pub fn partition_place(img: &[u8], h: Header, b: u64, slot: Slot) -> Result<BytePlace, Refusal>
    ensures { means result ≡ partition_found img.now h b slot.0 }
{
    let at = find_array(img, h, b)?;
    let k = slot.array_place(h.num_parts)?;
    Ok(BytePlace(at.0 + (k as usize) * 128))
}
