// Leaves for our own crates: each `requires` is what its caller has tested. No public calls.
ghost use Rattle.std.specs.Prelude.{◌≡◌, ◌+◌, ◌*◌, ◌^◌, ◌≤◌, ◌<◌, length};
ghost use Rattle.units.specs.Answer.{accepted, and_then};
ghost use Rattle.units.specs.Meanings.{means};
ghost use Rattle.partition.specs.Meanings.{found_of};
ghost use Rattle.rows.specs.Plans.{Made, planned};
ghost use Rattle.uefi.specs.Reading.{bad_stated, sized_sum, header_in, block_read, primary_by_uefi, backup_by_uefi};
ghost use Rattle.uefi.specs.Sizes.{good_each};
ghost use Rattle.uefi.specs.Array.{array_by_uefi, entries_by_uefi, place_by_uefi, held_at, primary_entries, backup_entries};

use header::Header;
use partition::Partition;
use rows::by_type;
use rows::inner::Plan;
use units::{BytePlace, Lba, Refusal, Slot};

// Whether a header in a block of size bytes cannot be of n bytes: 29.
pub fn bad_stated(n: usize, size: usize) -> bool
    ensures { result ≡ bad_stated n size }
{
    n < 92 || size < n
}

// The check sum of the n bytes from place at on, with zero for the bytes 16 to 19. It goes on from piece to piece, so nothing is copied.
pub fn sized_sum_at(s: &[u8], at: usize, n: usize) -> u32
    requires { (92 ≤ n) × (at + n ≤ length s.now) }
    ensures { result ≡ sized_sum s.now at n }
{
    let field = [0u8; 4];
    let front = crc32::inner::sum(crc32::FRESH, &s[at..at + 16]);
    let middle = crc32::inner::sum(front, &field);
    crc32::inner::sum(middle, &s[at + 20..at + n])
}

// The header at a place, in a block of b bytes that is block lba: 2, 4, 29, 5, 30, 31.
pub fn header_in(img: &[u8], b: u64, lba: Lba, place: BytePlace) -> Result<Header, Refusal>
    requires { 92 ≤ b }
    ensures { means result ≡ header_in img.now b lba.0 place.0 }
{
    let size = b as usize;
    if !units::is_inside(img.len(), place, size) {
        return Err(Refusal::Short);
    }
    let at = place.0;
    if !units::inner::same_at(img, at, b"EFI PART") {
        return Err(Refusal::InvalidGptSignature);
    }
    let h = header::inner::header_at(img, at);
    let stated = h.header_size_le as usize;
    if bad_stated(stated, size) {
        return Err(Refusal::BadHeaderSize);
    }
    if sized_sum_at(img, at, stated) != h.crc32 {
        return Err(Refusal::InvalidCRC32Checksum);
    }
    let clean = units::inner::all_zero(img, at + stated, size - stated);
    let here = h.current_lba.0 == lba.0;
    if !clean {
        return Err(Refusal::DirtyBlock);
    }
    if !here {
        return Err(Refusal::WrongPlace);
    }
    Ok(h)
}

// The header in block lba: 2, 4, 29, 5, 30, 31.
pub fn read_block(img: &[u8], b: u64, lba: Lba) -> Result<Header, Refusal>
    requires { (92 ≤ b) × (lba.0 * b < 2 ^ 64) }
    ensures { means result ≡ block_read img.now b lba.0 }
{
    let place = units::inner::place(lba, b);
    header_in(img, b, lba, place)
}

// The primary header, in block 1: 1, 2, 4, 29, 5, 30, 31.
pub fn primary(img: &[u8], b: u64) -> Result<Header, Refusal>
    ensures { means result ≡ primary_by_uefi img.now b }
{
    if !units::good_block_size(b) {
        return Err(Refusal::BadBlockSize);
    }
    read_block(img, b, Lba(1))
}

// The backup header, in the last whole block: 1, 8, 4, 29, 5, 30, 31.
pub fn backup(img: &[u8], b: u64) -> Result<Header, Refusal>
    ensures { means result ≡ backup_by_uefi img.now b }
{
    if !units::good_block_size(b) {
        return Err(Refusal::BadBlockSize);
    }
    let size = b as usize;
    if img.len() < 3 * size {
        return Err(Refusal::ToSmallForBackup);
    }
    let last = (img.len() - size) as u64 / b;
    read_block(img, b, Lba(last))
}

// Whether entries may be of n bytes: 128 times a power of two, up to 4,096.
#[tactic(auto, unfolding(crate::specs::Sizes::doubled, crate::specs::Sizes::good_each))]
pub fn good_each(n: u32) -> bool
    ensures { result ≡ good_each n }
{
    matches!(n, 128 | 256 | 512 | 1024 | 2048 | 4096)
}

// Where the array that a header names stands, once its sum is right: 1, 7, 3, 2, 6.
pub fn array_place(img: &[u8], h: Header, b: u64) -> Result<BytePlace, Refusal>
    ensures { means result ≡ array_by_uefi img.now h b }
{
    if !units::good_block_size(b) {
        return Err(Refusal::BadBlockSize);
    }
    if !good_each(h.part_size) {
        return Err(Refusal::BadEntrySize);
    }
    let sum = header::inner::parts_sum(img, h, b)?;
    if sum != h.crc32_parts {
        return Err(Refusal::PartsCrc);
    }
    Ok(units::inner::place(h.part_start, b))
}

// Where a slot's entry stands in the array that a header names: 1, 7, 3, 2, 6, 18.
pub fn slot_place(img: &[u8], h: Header, b: u64, slot: Slot) -> Result<BytePlace, Refusal>
    ensures { means result ≡ place_by_uefi img.now h b slot.0 }
{
    let at = array_place(img, h, b)?;
    let k = slot.array_place(h.num_parts)?;
    Ok(by_type::entry_place(at, h.part_size, k))
}

// What the entry at a place holds: its record, or of a nil type none.
pub fn held_at(img: &[u8], at: BytePlace) -> Option<Partition>
    requires { at.0 + 128 ≤ length img.now }
    ensures { found_of result ≡ held_at img.now at.0 }
{
    if !by_type::is_used(img, at) {
        return None;
    }
    Some(partition::inner::entry_at(img, at.0))
}

// The used entries of the array that a header names: 1, 7, 3, 2, 6.
pub fn plan_with(img: &[u8], h: Header, b: u64) -> Plan
    ensures { Made img.now result × (planned img.now result ≡ entries_by_uefi img.now h b) }
{
    match array_place(img, h, b) {
        Err(w) => Plan::refused_plainly(w),
        Ok(at) => Plan::listing_by_type(img, at, h.num_parts, h.part_size),
    }
}

// The same of a header that was read, or its refusal.
fn plan_read(img: &[u8], r: Result<Header, Refusal>, b: u64) -> Plan
    ensures { Made img.now result × (planned img.now result ≡ and_then (means r) (λ h. entries_by_uefi img.now h b)) }
{
    match r {
        Err(w) => Plan::refused_plainly(w),
        Ok(h) => plan_with(img, h, b),
    }
}

// The plan of a header's array: every test but that of the row's length.
pub fn plan_for(img: &[u8], h: Header, b: u64) -> Plan
    ensures { Made img.now result × (planned img.now result ≡ entries_by_uefi img.now h b) }
{
    plan_with(img, h, b)
}

// The plan of the primary table, header and array.
pub fn plan_primary(img: &[u8], b: u64) -> Plan
    ensures { Made img.now result × (planned img.now result ≡ primary_entries img.now b) }
{
    let r = primary(img, b);
    plan_read(img, r, b)
}

// The plan of the backup table, header and array.
pub fn plan_backup(img: &[u8], b: u64) -> Plan
    ensures { Made img.now result × (planned img.now result ≡ backup_entries img.now b) }
{
    let r = backup(img, b);
    plan_read(img, r, b)
}
