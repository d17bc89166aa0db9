// Leaves for our own crates: each `requires` is what its caller has tested. No public calls.
ghost use Rattle.units.specs.Meanings.{means};
ghost use Rattle.std.specs.Prelude.{◌≡◌, ◌++◌, ◌+◌, ◌-◌, ◌≤◌, length, replicate};
ghost use Rattle.std.proofs.lemmas.List.Edits.{sets};
ghost use Rattle.units.specs.Answer.{Ends};
ghost use Rattle.crc32.specs.HeaderSum.{header_sum};
ghost use Rattle.header.specs.Format.{header_at, header_bytes};
ghost use Rattle.header.specs.Reading.{header_read};
ghost use Rattle.header.specs.Writing.{parts_sum, written, with_sums, stored};

use crate::{Header, Revision, Written};
use units::inner::Field;
use units::{BytePlace, Lba, Refusal};

// The fields of the 92 bytes at place at.
pub fn header_at(s: &[u8], at: usize) -> Header
    requires { at + 92 ≤ length s.now }
    ensures { result ≡ header_at s.now at }
{
    Header {
        revision: Revision(u16::get(s, at + 10), u16::get(s, at + 8)),
        header_size_le: u32::get(s, at + 12),
        crc32: u32::get(s, at + 16),
        reserved: u32::get(s, at + 20),
        current_lba: Lba(u64::get(s, at + 24)),
        backup_lba: Lba(u64::get(s, at + 32)),
        first_usable: Lba(u64::get(s, at + 40)),
        last_usable: Lba(u64::get(s, at + 48)),
        disk_guid: units::inner::guid_at(s, at + 56),
        part_start: Lba(u64::get(s, at + 72)),
        num_parts: u32::get(s, at + 80),
        part_size: u32::get(s, at + 84),
        crc32_parts: u32::get(s, at + 88),
    }
}

// The header's 92 bytes, stored at place at.
pub fn put_header(s: &mut [u8], at: usize, h: Header)
    requires { at + 92 ≤ length s.old }
    ensures { s.new ≡ sets s.old at (header_bytes h) }
{
    units::inner::put_bytes(s, at, b"EFI PART");
    h.revision.1.put(s, at + 8);
    h.revision.0.put(s, at + 10);
    h.header_size_le.put(s, at + 12);
    h.crc32.put(s, at + 16);
    h.reserved.put(s, at + 20);
    h.current_lba.0.put(s, at + 24);
    h.backup_lba.0.put(s, at + 32);
    h.first_usable.0.put(s, at + 40);
    h.last_usable.0.put(s, at + 48);
    units::inner::put_guid(s, at + 56, h.disk_guid);
    h.part_start.0.put(s, at + 72);
    h.num_parts.put(s, at + 80);
    h.part_size.put(s, at + 84);
    h.crc32_parts.put(s, at + 88);
}

// The header at a place: 2, 4, 5.
pub fn read_header(img: &[u8], at: BytePlace) -> Result<Header, Refusal>
    ensures { means result ≡ header_read img.now at.0 }
{
    if !units::is_inside(img.len(), at, 92) {
        return Err(Refusal::Short);
    }
    let a = at.0;
    if !units::inner::same_at(img, a, b"EFI PART") {
        return Err(Refusal::InvalidGptSignature);
    }
    let h = header_at(img, a);
    if crc32::inner::header_sum_at(img, a) != h.crc32 {
        return Err(Refusal::InvalidCRC32Checksum);
    }
    Ok(h)
}

// The sum of the array that a header names: 1, 3, 2. An empty array is summed at any place.
pub fn parts_sum(img: &[u8], h: Header, b: u64) -> Result<u32, Refusal>
    ensures { means result ≡ parts_sum img.now h b }
{
    let n = (h.num_parts as u64 * h.part_size as u64) as usize;
    let at = h.part_start.place(b)?;
    if n == 0 {
        return Ok(crc32::FRESH);
    }
    if !units::is_inside(img.len(), at, n) {
        return Err(Refusal::Short);
    }
    let a = at.0;
    Ok(crc32::inner::sum(crc32::FRESH, &img[a..a + n]))
}

// The sum of the header's own 92 bytes.
pub fn own_sum(h: Header) -> u32
    ensures { result ≡ header_sum (header_bytes h) 0 }
{
    let mut bytes = [0u8; 92];
    put_header(&mut bytes, 0, h);
    crc32::inner::header_sum_at(&bytes, 0)
}

// The header with the array's sum and then its own.
pub fn with_sums(h: Header, parts: u32) -> Header
    ensures { result ≡ with_sums h parts }
{
    let mut next = h;
    next.crc32_parts = parts;
    let mut plain = next;
    plain.reserved = 0;
    next.crc32 = own_sum(plain);
    next
}

// One whole block: the header's 92 bytes with reserved as 0, and zeros after them.
pub fn put_block(img: &mut [u8], at: usize, size: usize, h: Header)
    requires { (92 ≤ size) × (at + size ≤ length img.old) }
    ensures { img.new ≡ sets img.old at (header_bytes (stored h) ++ replicate (size - 92) 0) }
{
    let mut plain = h;
    plain.reserved = 0;
    put_header(img, at, plain);
    units::inner::put_zeros(img, at + 92, size - 92);
}

// Stores a header in its own block, with new sums: 1, 11 where the caller found it wrong, 3, 2, 3, 2.
pub fn write_header(img: &mut [u8], h: Header, b: u64, wrong: bool) -> Result<Written, Refusal>
    ensures { Ends (written wrong img.old h b) (means result) img.new }
{
    if !units::good_block_size(b) {
        return Err(Refusal::BadBlockSize);
    }
    if wrong {
        return Err(Refusal::WritingToWrongLba);
    }
    let parts = parts_sum(img, h, b)?;
    let at = h.current_lba.place(b)?;
    let size = b as usize;
    if !units::is_inside(img.len(), at, size) {
        return Err(Refusal::Short);
    }
    let header = with_sums(h, parts);
    let a = at.0;
    put_block(img, a, size, header);
    Ok(Written {
        count: size,
        header,
    })
}
