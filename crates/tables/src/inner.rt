// Leaves for our own crates: each `requires` is what its caller has tested. No public calls.
// `copy` is one table's own b + 16,384 bytes: in front the header's block and then the array, at the back the array and then the header's block. `len` is the card's length in bytes.
ghost use Rattle.std.specs.Prelude.{◌≡◌, false, ◌+◌, ◌*◌, ◌-◌, ◌≤◌, ◌<◌, length};
ghost use Rattle.std.proofs.lemmas.List.Edits.{sets};
ghost use Rattle.crc32.specs.Crc.{crc};
ghost use Rattle.tables.specs.Places.{blocks, first_usable_of, last_usable_of, back_array};
ghost use Rattle.tables.specs.Lens.{side_of, header_in, array_in, copy_in};
ghost use Rattle.tables.specs.Headers.{own_block, other_block, array_start, card_header, head_block};
ghost use Rattle.tables.specs.Check.{room_check, bad_slot};

use header::{Header, Revision};
use units::{BytePlace, Guid, Lba, Slot, why};

// How many whole blocks len bytes have.
pub fn block_count(len: usize, b: u64) -> u64
    requires { 0 < b }
    ensures { result ≡ blocks b len }
{
    len as u64 / b
}

// The number that refuses a card of len bytes without room for both tables, or 0: 1 bad block size, 8 below three blocks, 10 no room between the tables.
pub fn room_check(len: usize, b: u64) -> u32
    ensures { result ≡ (room_check b len).number }
{
    if !units::good_block_size(b) {
        return why::BAD_BLOCK_SIZE;
    }
    if len < 3 * b as usize {
        return why::TO_SMALL_FOR_BACKUP;
    }
    if block_count(len, b) - 1 < 2 * (16384 / b) + 3 {
        return why::BACKUP_LBA_TO_EARLY;
    }
    0
}

// Whether a slot is none of the card's.
pub fn bad_slot(slot: Slot) -> bool
    ensures { result ≡ bad_slot slot.0 }
{
    (slot.0 < 1) | (128 < slot.0)
}

// The usable blocks, from the first to the last.
pub fn first_usable(b: u64) -> Lba
    requires { 0 < b }
    ensures { result ≡ record { 0 = first_usable_of b } }
{
    Lba(2 + 16384 / b)
}

pub fn last_usable(len: usize, b: u64) -> Lba
    requires { (room_check b len).number ≡ 0 }
    ensures { result ≡ record { 0 = last_usable_of b len } }
{
    Lba(block_count(len, b) - 16384 / b - 2)
}

// The block of a side's header: the first after block 0, or the last.
pub fn own_block(len: usize, b: u64, back: bool) -> Lba
    requires { (room_check b len).number ≡ 0 }
    ensures { result ≡ record { 0 = own_block b len (side_of back) } }
{
    if back {
        return Lba(block_count(len, b) - 1);
    }
    Lba(1)
}

// The block of the other side's header.
pub fn other_block(len: usize, b: u64, back: bool) -> Lba
    requires { (room_check b len).number ≡ 0 }
    ensures { result ≡ record { 0 = other_block b len (side_of back) } }
{
    own_block(len, b, !back)
}

// The first block of a side's array.
pub fn array_start(len: usize, b: u64, back: bool) -> Lba
    requires { (room_check b len).number ≡ 0 }
    ensures { result ≡ record { 0 = array_start b len (side_of back) } }
{
    if back {
        return Lba(last_usable(len, b).0 + 1);
    }
    Lba(2)
}

// Where the back table starts in an image: its array comes first.
pub fn back_place(len: usize, b: u64) -> BytePlace
    requires { (room_check b len).number ≡ 0 }
    ensures { (result.0 ≡ back_array b len) × (result.0 + (b + 16384) ≤ len) }
{
    units::inner::place(array_start(len, b, true), b)
}

// Where the header's block starts in a copy.
pub fn header_in(back: bool) -> BytePlace
    ensures { (result.0 ≡ header_in (side_of back)) × (result.0 ≤ 16384) }
{
    if back {
        return BytePlace(16384);
    }
    BytePlace(0)
}

// Where the array starts in a copy.
pub fn array_in(b: u64, back: bool) -> BytePlace
    ensures { (result.0 ≡ array_in b (side_of back)) × (result.0 ≤ b) }
{
    if back {
        return BytePlace(0);
    }
    BytePlace(b as usize)
}

// Where a slot's entry starts in a copy.
pub fn slot_in(b: u64, back: bool, slot: Slot) -> BytePlace
    requires { (b ≤ 4096) × (bad_slot slot.0 ≡ false) }
    ensures { (result.0 ≡ array_in b (side_of back) + 128 * (slot.0 - 1)) × (result.0 + 128 ≤ b + 16384) }
{
    let k = units::inner::array_place(slot);
    partition::inner::entry_place(array_in(b, back), k as usize)
}

// The check sum of a copy's array.
pub fn array_sum(copy: &[u8], b: u64, back: bool) -> u32
    requires { length copy.now ≡ b + 16384 }
    ensures { result ≡ crc (copy_in b (side_of back) copy.now).array }
{
    let array = array_in(b, back);
    let at = array.0;
    crc32::inner::sum(crc32::FRESH, &copy[at..at + 16384])
}

// The header of a card on one side, before it has its sums.
pub fn card_header(len: usize, b: u64, back: bool, guid: Guid) -> Header
    requires { (room_check b len).number ≡ 0 }
    ensures { result ≡ card_header b len (side_of back) guid }
{
    Header {
        revision: Revision(1, 0),
        header_size_le: 92,
        crc32: 0,
        reserved: 0,
        current_lba: own_block(len, b, back),
        backup_lba: other_block(len, b, back),
        first_usable: first_usable(b),
        last_usable: last_usable(len, b),
        disk_guid: guid,
        part_start: array_start(len, b, back),
        num_parts: 128,
        part_size: 128,
        crc32_parts: 0,
    }
}

// Stores the 128 bytes of a slot's entry in a copy.
pub fn put_slot(copy: &mut [u8], b: u64, back: bool, slot: Slot, e: &[u8])
    requires b_bound { (b ≤ 4096) × (bad_slot slot.0 ≡ false) }
    requires copy_len { (length copy.old ≡ b + 16384) × (length e.now ≡ 128) }
    ensures { copy.new ≡ sets copy.old (array_in b (side_of back) + 128 * (slot.0 - 1)) e.now }
{
    let at = slot_in(b, back, slot);
    units::inner::put_bytes(copy, at.0, e);
}

// Stores the header's block of a copy as lay would, for a GUID and the array's sum.
pub fn put_header(copy: &mut [u8], len: usize, b: u64, back: bool, guid: Guid, parts: u32)
    requires { ((room_check b len).number ≡ 0) × (length copy.old ≡ b + 16384) }
    ensures { copy.new ≡ sets copy.old (header_in (side_of back)) (head_block b len (side_of back) guid parts) }
{
    let size = b as usize;
    let plain = card_header(len, b, back, guid);
    let h = header::inner::with_sums(plain, parts);
    let at = header_in(back);
    header::inner::put_block(copy, at.0, size, h);
}
