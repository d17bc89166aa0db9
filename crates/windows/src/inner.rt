// Leaves for our own crates: each `requires` is what its caller has tested. No public calls.
// `head` and `tail` are two windows of a card of `blocks` blocks; `len` is the card's length in bytes, blocks times b. The front table is the head after its first block, the back one the tail.
ghost use Rattle.std.specs.Prelude.{◌≡◌, false, ℕ, ◌+◌, ◌*◌, ◌-◌, ◌≤◌, length};
ghost use Rattle.std.proofs.lemmas.List.Edits.{sets};
ghost use Rattle.units.specs.Answer.{plain, if_zero};
ghost use Rattle.units.specs.Guids.{guid_bytes};
ghost use Rattle.tables.specs.Places.{blocks};
ghost use Rattle.tables.specs.Lens.{Front, Back, Tables, copy_bytes};
ghost use Rattle.tables.specs.Entries.{zeros};
ghost use Rattle.tables.specs.Headers.{card_of};
ghost use Rattle.tables.specs.Check.{room_check, check, slot_check, bad_slot};
ghost use Rattle.card.specs.Calls.{mbr, put_check};
ghost use Rattle.windows.specs.Windows.{head_long, tail_long, window_tables, length_check, window_check, window_why, changed_in};

use units::why::Why;
use units::{BytePlace, Guid, Place, Slot, why};

// The blocks times b pass 64 bits.
const OVERFLOW: u32 = 3;

// A window is not as long as the card asks for.
const WINDOW_LENGTH: u32 = 32;

// 32, or 0 where both windows are as long as they must be: the head block 0 and the front table, the tail the back one.
pub fn length_check(head: usize, tail: usize, b: u64) -> u32
    requires { b ≤ 4096 }
    ensures { result ≡ (length_check b head tail).number }
{
    let size = b as usize;
    if (head == size + (size + 16384)) & (tail == size + 16384) {
        return 0;
    }
    WINDOW_LENGTH
}

// The first of two numbers that refuses: the second where the first is 0.
pub fn first_of(one: u32, two: u32) -> u32
    ensures { result ≡ if_zero one two one }
{
    if one != 0 {
        return one;
    }
    two
}

// The number that refuses windows by their lengths and the stated blocks, or 0: 1 bad block size, 3 the blocks pass 64 bits, 8 and 10 no room, 32 a window's length.
pub fn window_check(head: usize, tail: usize, blocks: u64, b: u64) -> u32
    ensures { result ≡ (window_check b blocks head tail).number }
{
    if !units::good_block_size(b) {
        return why::BAD_BLOCK_SIZE;
    }
    if 0xFFFF_FFFF_FFFF_FFFF / b < blocks {
        return OVERFLOW;
    }
    let room = tables::inner::room_check((blocks * b) as usize, b);
    let length = length_check(head, tail, b);
    first_of(room, length)
}

// A refusal by a number that names nothing.
pub fn by_number(number: u32) -> Why
    ensures { result ≡ plain number }
{
    Why {
        number,
        slot: Slot(0),
        place: Place::Nowhere,
    }
}

// The card check of windows, after their own numbers.
pub fn check_in(head: &[u8], tail: &[u8], blocks: u64, b: u64) -> Why
    ensures { result ≡ window_why b blocks head.now tail.now (check b) }
{
    let wrong = window_check(head.len(), tail.len(), blocks, b);
    if wrong != 0 {
        return by_number(wrong);
    }
    let size = b as usize;
    let len = (blocks * b) as usize;
    let front = &head[size..size + (size + 16384)];
    checking::inner::copies_check(front, tail, len, b)
}

// 18 (bad slot) after the check: the tests of a call on one slot.
pub fn slot_check_in(head: &[u8], tail: &[u8], blocks: u64, b: u64, slot: Slot) -> Why
    ensures { result ≡ window_why b blocks head.now tail.now (λ (n : ℕ) (f : Tables). slot_check b n f slot.0) }
{
    let found = check_in(head, tail, blocks, b);
    if found.number != 0 {
        return found;
    }
    if tables::inner::bad_slot(slot) {
        return why::BAD_SLOT;
    }
    why::FINE
}

// All that put tests, of windows.
pub fn put_check_in(
    head: &[u8],
    tail: &[u8],
    blocks: u64,
    b: u64,
    slot: Slot,
    e: &[u8],
    reserved: u64,
) -> Why
    requires { length e.now ≡ 128 }
    ensures { result ≡ window_why b blocks head.now tail.now (λ (n : ℕ) (f : Tables). put_check b n f slot.0 e.now reserved) }
{
    let found = check_in(head, tail, blocks, b);
    if found.number != 0 {
        return found;
    }
    let size = b as usize;
    let len = (blocks * b) as usize;
    let front = &head[size..size + (size + 16384)];
    card::changing::entry_check(front, len, b, slot, e, reserved)
}

// The whole change of windows that the check accepts, the tail first.
pub fn change(head: &mut [u8], tail: &mut [u8], len: usize, b: u64, slot: Slot, e: &[u8])
    requires head_len { (length head.old ≡ head_long b) × (length tail.old ≡ tail_long b) × ((check b len (window_tables b head.old tail.old)).number ≡ 0) }
    requires slot_value { (bad_slot slot.0 ≡ false) × (length e.now ≡ 128) }
    ensures head_after { head.new ≡ sets head.old b (copy_bytes Front (changed_in b len head.old tail.old slot.0 e.now).front) }
    ensures tail_after { tail.new ≡ copy_bytes Back (changed_in b len head.old tail.old slot.0 e.now).back }
{
    let guid = card::changing::front_guid(head, b);
    let parts = card::changing::front_sum(head, len, b, slot, e);
    card::changing::change_copy(tail, len, b, true, slot, e, guid, parts);
    let front = BytePlace(b as usize);
    card::changing::change_at(head, front, len, b, false, slot, e, guid, parts);
}

// All that lay stores, in windows: the protective MBR in block 0, and both tables.
pub fn lay_in(head: &mut [u8], tail: &mut [u8], len: usize, b: u64, guid: Guid)
    requires { ((room_check b len).number ≡ 0) × (length head.old ≡ head_long b) × (length tail.old ≡ tail_long b) }
    ensures head_after { head.new ≡ sets (sets head.old 0 (mbr (blocks b len - 1))) b (copy_bytes Front (card_of b len (guid_bytes guid) (zeros 16384)).front) }
    ensures tail_after { tail.new ≡ copy_bytes Back (card_of b len (guid_bytes guid) (zeros 16384)).back }
{
    card::laying::put_mbr(head, tables::inner::own_block(len, b, true));
    card::laying::lay_copy(tail, len, b, true, guid);
    card::laying::lay_at(head, BytePlace(b as usize), len, b, false, guid);
}
