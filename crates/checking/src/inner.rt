// The card check over two copies: 1 bad block size, 8 below three blocks, 10 no room; of each table 4 signature, 5 header sum, 16 layout, 6 array sum, front or back; 17 the
// tables differ, in their disk GUIDs or first in a slot; 16 an entry is wrong, or two used ones have one partition GUID. The tests of one table give a number, and where it
// was is said where the tables meet. The public call comes last; each `requires` before it is what a caller has tested.
// `copy` is one table's own b + 16,384 bytes, as in `tables::inner`; `len` is the card's length in bytes.
ghost use Rattle.std.specs.Prelude.{◌≡◌, true, not, List, ℕ, ◌+◌, ◌≤◌, ◌<◌, length};
ghost use Rattle.units.proofs.Chains.{found, last};
ghost use Rattle.units.specs.Bytes.{part, same};
ghost use Rattle.units.specs.Meanings.{card_means};
ghost use Rattle.crc32.specs.Crc.{crc};
ghost use Rattle.tables.specs.Checks.{all};
ghost use Rattle.tables.specs.Places.{first_usable_of, last_usable_of};
ghost use Rattle.tables.specs.Lens.{Front, Back, side_of, copy_in, copies, tables};
ghost use Rattle.tables.specs.Entries.{entry, used, first_of, last_of, ok_entry, all_ok, overlaps, all_apart, entries_ok};
ghost use Rattle.tables.specs.Headers.{alike, laid_fields};
ghost use Rattle.tables.specs.Check.{room_check, table_check, differs, tables_check, check, slot_check, check_answer};
ghost use Rattle.checking.specs.Order.{starts_after, greatest_last, Below};

use header::Header;
use units::why::Why;
use units::{BytePlace, Lba, Place, Reason, Slot, why};

// Whether two headers are the same in all fields but the GUID and the sums.
fn alike(h: Header, k: Header) -> bool
    ensures { result ≡ alike h k }
{
    (h.revision.1 == k.revision.1)
        & (h.revision.0 == k.revision.0)
        & (h.header_size_le == k.header_size_le)
        & (h.reserved == k.reserved)
        & (h.current_lba.0 == k.current_lba.0)
        & (h.backup_lba.0 == k.backup_lba.0)
        & (h.first_usable.0 == k.first_usable.0)
        & (h.last_usable.0 == k.last_usable.0)
        & (h.part_start.0 == k.part_start.0)
        & (h.num_parts == k.num_parts)
        & (h.part_size == k.part_size)
}

// What 16 (wrong layout) tests of a header, in the back table or in the front one: it is like the one that lay would write.
fn laid_fields(h: Header, len: usize, b: u64, back: bool) -> bool
    requires { (room_check b len).number ≡ 0 }
    ensures { result ≡ laid_fields b len (side_of back) h }
{
    alike(h, tables::inner::card_header(len, b, back, h.disk_guid))
}

// Whether n bytes at a place of one copy are those at a place of the other.
fn same_in(one: &[u8], at: BytePlace, two: &[u8], other: BytePlace, n: usize) -> bool
    requires { (at.0 + n ≤ length one.now) × (other.0 + n ≤ length two.now) }
    ensures { result ≡ same (part one.now at.0 n) (part two.now other.0 n) }
{
    units::inner::same_at(one, at.0, &two[other.0..other.0 + n])
}

// The back array's sum: the front array's, where the two are the same.
fn back_sum(copy: &[u8], b: u64, agree: bool, sum: u32) -> u32
    requires copy_len { length copy.now ≡ b + 16384 }
    requires sum_value { agree ≡ true → sum ≡ crc (copy_in b Back copy.now).array }
    ensures { result ≡ crc (copy_in b Back copy.now).array }
{
    if agree {
        return sum;
    }
    tables::inner::array_sum(copy, b, true)
}

// The number that refuses one table, whose array has a sum, or 0: 4 signature, 5 header sum, 16 layout, 6 array sum.
pub fn copy_check(copy: &[u8], len: usize, b: u64, back: bool, sum: u32) -> u32
    requires len_value { ((room_check b len).number ≡ 0) × (length copy.now ≡ b + 16384) }
    requires sum_value { sum ≡ crc (copy_in b (side_of back) copy.now).array }
    ensures { result ≡ (table_check b len (side_of back) (copy_in b (side_of back) copy.now)).number }
{
    let at = tables::inner::header_in(back);
    if !units::inner::same_at(copy, at.0, b"EFI PART") {
        return why::INVALID_GPT_SIGNATURE;
    }
    let h = header::inner::header_at(copy, at.0);
    if crc32::inner::header_sum_at(copy, at.0) != h.crc32 {
        return why::INVALID_CRC32_CHECKSUM;
    }
    if !laid_fields(h, len, b, back) {
        return why::WRONG_LAYOUT;
    }
    if sum != h.crc32_parts {
        return why::PARTS_CRC;
    }
    0
}

// Whether the entry at a place is all zero, or used and inside the usable blocks.
fn entry_ok(img: &[u8], at: BytePlace, first: Lba, last: Lba) -> bool
    requires { at.0 + 128 ≤ length img.now }
    ensures { (B n : ℕ) → first.0 ≡ first_usable_of B → last.0 ≡ last_usable_of B n → result ≡ ok_entry B n (part img.now at.0 128) }
{
    if partition::inner::nil_type_at(img, at) {
        return units::inner::all_zero(img, at.0, 128);
    }
    let from = partition::inner::first_at(img, at);
    let to = partition::inner::last_at(img, at);
    (from.0 <= to.0) & ((first.0 <= from.0) & (to.0 <= last.0))
}

// The same of each of the 128 entries.
fn each_ok(img: &[u8], at: BytePlace, first: Lba, last: Lba) -> bool
    requires { at.0 + 16384 ≤ length img.now }
    ensures { (B n : ℕ) → first.0 ≡ first_usable_of B → last.0 ≡ last_usable_of B n → result ≡ all_ok B n (part img.now at.0 16384) }
{
    for k in 0..128 {
        if !entry_ok(img, partition::inner::entry_place(at, k), first, last) {
            return false;
        }
    }
    true
}

// Whether the entry at a place is used and shares a block with a used entry that has the blocks from first to last.
pub fn overlaps(img: &[u8], at: BytePlace, first: Lba, last: Lba) -> bool
    requires { at.0 + 128 ≤ length img.now }
    ensures { (e : List ℕ) → used e ≡ true → first.0 ≡ first_of e → last.0 ≡ last_of e → result ≡ overlaps e (part img.now at.0 128) }
{
    if partition::inner::nil_type_at(img, at) {
        return false;
    }
    let from = partition::inner::first_at(img, at);
    let to = partition::inner::last_at(img, at);
    (first.0 <= to.0) & (from.0 <= last.0)
}

// Whether entry k shares no block with an entry before it.
fn apart_below(img: &[u8], at: BytePlace, k: usize) -> bool
    requires { (at.0 + 16384 ≤ length img.now) × (k < 128) }
    ensures { result ≡ all k (λ (j : ℕ). not (overlaps (entry (part img.now at.0 16384) k) (entry (part img.now at.0 16384) j))) }
{
    let own = partition::inner::entry_place(at, k);
    if partition::inner::nil_type_at(img, own) {
        return true;
    }
    let first = partition::inner::first_at(img, own);
    let last = partition::inner::last_at(img, own);
    for j in 0..k {
        if overlaps(img, partition::inner::entry_place(at, j), first, last) {
            return false;
        }
    }
    true
}

// Whether the entry at a place is unused, or starts after block top.
fn starts_after(img: &[u8], own: BytePlace, top: Lba) -> bool
    requires { own.0 + 128 ≤ length img.now }
    ensures { result ≡ starts_after (part img.now own.0 128) top.0 }
{
    if partition::inner::nil_type_at(img, own) {
        return true;
    }
    let first = partition::inner::first_at(img, own);
    top.0 < first.0
}

// The greater of block top and the last block of the entry at a place, if it is used.
fn greatest_last(img: &[u8], own: BytePlace, top: Lba) -> Lba
    requires { own.0 + 128 ≤ length img.now }
    ensures { result.0 ≡ greatest_last (part img.now own.0 128) top.0 }
{
    if partition::inner::nil_type_at(img, own) {
        return top;
    }
    let last = partition::inner::last_at(img, own);
    if top.0 < last.0 {
        return last;
    }
    top
}

// The same as `apart_below`, where no entry before entry k ends after block top: only an entry that starts at top or before needs to be compared.
fn apart_from(img: &[u8], at: BytePlace, k: usize, top: Lba) -> bool
    requires at_in_bounds { (at.0 + 16384 ≤ length img.now) × (k < 128) }
    requires below { Below (part img.now at.0 16384) k top.0 }
    ensures { result ≡ all k (λ (j : ℕ). not (overlaps (entry (part img.now at.0 16384) k) (entry (part img.now at.0 16384) j))) }
{
    if starts_after(img, partition::inner::entry_place(at, k), top) {
        return true;
    }
    apart_below(img, at, k)
}

// Whether no two entries share a block. Entries in the order of their blocks are passed through once.
fn all_apart(img: &[u8], at: BytePlace) -> bool
    requires { at.0 + 16384 ≤ length img.now }
    ensures { result ≡ all_apart (part img.now at.0 16384) }
{
    let mut top = Lba(0);
    for k in 0..128 {
        if !apart_from(img, at, k, top) {
            return false;
        }
        top = greatest_last(img, partition::inner::entry_place(at, k), top);
    }
    true
}

// What 16 (wrong layout) tests of a copy's array: each entry, that no two share a block, and that no two used ones have one partition GUID.
pub fn entries_ok(copy: &[u8], len: usize, b: u64, back: bool) -> bool
    requires { ((room_check b len).number ≡ 0) × (length copy.now ≡ b + 16384) }
    ensures { result ≡ entries_ok b len (copy_in b (side_of back) copy.now).array }
{
    let at = tables::inner::array_in(b, back);
    let first = tables::inner::first_usable(b);
    let last = tables::inner::last_usable(len, b);
    if !each_ok(copy, at, first, last) {
        return false;
    }
    if !all_apart(copy, at) {
        return false;
    }
    twins::inner::all_single(copy, at)
}

// The first slot whose 128 bytes differ in the two arrays; 129 where none does. The check asks only where the arrays differ.
fn first_differing(front: &[u8], back: &[u8], b: u64) -> Slot
    requires { (b ≤ 4096) × (length front.now ≡ b + 16384) × (length back.now ≡ b + 16384) }
    ensures { result ≡ record { 0 = differs (copy_in b Front front.now).array (copy_in b Back back.now).array + 1 } }
{
    let array = tables::inner::array_in(b, false);
    let other = tables::inner::array_in(b, true);
    for k in 0..128u32 {
        let one = partition::inner::entry_place(array, k as usize);
        let two = partition::inner::entry_place(other, k as usize);
        if !same_in(front, one, back, two, 128) {
            return units::inner::slot_at(k);
        }
    }
    units::inner::slot_at(128)
}

// 17 the tables differ, in their disk GUIDs or else first in a slot; 16 the entries of the front array are wrong.
fn pair_check<'a>(front: &'a [u8], back: &'a [u8], agree: bool, len: usize, b: u64) -> Why
    requires len_value { ((room_check b len).number ≡ 0) × (length front.now ≡ b + 16384) × (length back.now ≡ b + 16384) }
    requires agree_value { agree ≡ same (copy_in b Front front.now).array (copy_in b Back back.now).array }
    ensures { result ≡ tables_check b len (copies b front.now back.now) }
{
    if !same_in(front, BytePlace(56), back, BytePlace(16384 + 56), 16) {
        return why::TWO_DISK_GUIDS;
    }
    if !agree {
        let slot = first_differing(front, back, b);
        return Why {
            number: why::DISAGREE,
            slot: Slot(0),
            place: Place::InSlot(slot),
        };
    }
    if !entries_ok(front, len, b, false) {
        return why::WRONG_ENTRIES;
    }
    why::FINE
}

// The check of the two tables of a card that has room for them: what refuses a table is said with its side.
pub fn copies_check(front: &[u8], back: &[u8], len: usize, b: u64) -> Why
    requires { ((room_check b len).number ≡ 0) × (length front.now ≡ b + 16384) × (length back.now ≡ b + 16384) }
    ensures { result ≡ check b len (copies b front.now back.now) }
{
    let array = tables::inner::array_in(b, false);
    let other = tables::inner::array_in(b, true);
    let agree = same_in(front, array, back, other, 16384);
    let sum = tables::inner::array_sum(front, b, false);
    let front_found = copy_check(front, len, b, false, sum);
    if front_found != 0 {
        return Why {
            number: front_found,
            slot: Slot(0),
            place: Place::Front,
        };
    }
    let other_sum = back_sum(back, b, agree, sum);
    let back_found = copy_check(back, len, b, true, other_sum);
    if back_found != 0 {
        return Why {
            number: back_found,
            slot: Slot(0),
            place: Place::Back,
        };
    }
    pair_check(front, back, agree, len, b)
}

// The check of an image, for the calls that it comes first in.
pub fn check_with(img: &[u8], b: u64) -> Why
    ensures { result ≡ check b (length img.now) (tables b img.now) }
{
    let len = img.len();
    let room = tables::inner::room_check(len, b);
    if room != 0 {
        return Why {
            number: room,
            slot: Slot(0),
            place: Place::Nowhere,
        };
    }
    let size = b as usize;
    let at = tables::inner::back_place(len, b);
    let from = at.0;
    copies_check(
        &img[size..size + (size + 16384)],
        &img[from..from + (size + 16384)],
        len,
        b,
    )
}

// 18 (bad slot) after the check: the tests of a call on one slot.
pub fn slot_check(img: &[u8], b: u64, slot: Slot) -> Why
    ensures { result ≡ slot_check b (length img.now) (tables b img.now) slot.0 }
{
    let found = check_with(img, b);
    if found.number != 0 {
        return found;
    }
    if tables::inner::bad_slot(slot) {
        return why::BAD_SLOT;
    }
    why::FINE
}

// The card check.
pub fn check(img: &[u8], b: u64) -> Result<(), Reason>
    ensures { card_means result ≡ check_answer b img.now }
{
    let found = check_with(img, b);
    found.verdict()
}
