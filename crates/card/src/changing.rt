// What put tests of a record, and the change that put and clear make: 128 bytes of one slot in both tables, under lay's headers with the GUID kept.
// `copy` is one table's own b + 16,384 bytes, as in `tables::inner`; `len` is the card's length in bytes; e is the 128 bytes of an entry.
ghost use Rattle.std.specs.Prelude.{◌≡◌, true, false, List, ℕ, ◌+◌, ◌*◌, ◌-◌, ◌≤◌, ltb, length};
ghost use Rattle.std.proofs.lemmas.List.Edits.{sets};
ghost use Rattle.units.proofs.Chains.{found};
ghost use Rattle.units.specs.Answer.{of_slot, when, or_else};
ghost use Rattle.units.specs.Bytes.{part};
ghost use Rattle.crc32.specs.Crc.{crc};
ghost use Rattle.tables.specs.Lens.{Front, side_of, copy_in, tables, with_tables};
ghost use Rattle.tables.specs.Entries.{set_entry, used, first_of, last_of};
ghost use Rattle.tables.specs.Check.{room_check, table_check, check, bad_slot};
ghost use Rattle.card.specs.Calls.{record_check, first_overlap, overlap_check, twin_check, flag_check, entry_check, put_check, KeptGuid, changed_bytes, changed};

use units::inner::Field;
use units::why::Why;
use units::{BytePlace, Guid, Lba, Place, Slot, why};

// 18 no such slot, 19 nil type, 20 last before first, 21 outside the usable blocks.
fn record_check(e: &[u8], slot: Slot, len: usize, b: u64) -> Why
    requires { ((room_check b len).number ≡ 0) × (length e.now ≡ 128) }
    ensures { result ≡ record_check b len slot.0 e.now }
{
    if tables::inner::bad_slot(slot) {
        return why::BAD_SLOT;
    }
    if partition::inner::nil_type_at(e, BytePlace(0)) {
        return why::NIL_TYPE;
    }
    let first = partition::inner::first_at(e, BytePlace(0));
    let last = partition::inner::last_at(e, BytePlace(0));
    if last.0 < first.0 {
        return why::BAD_RANGE;
    }
    let low = tables::inner::first_usable(b);
    let high = tables::inner::last_usable(len, b);
    if (first.0 < low.0) | (high.0 < last.0) {
        return why::OUTSIDE_USABLE;
    }
    why::FINE
}

// Array place of the lowest entry other than k that overlaps the blocks first to last, in the array at a place; 128 if there is none.
fn first_overlap(copy: &[u8], at: BytePlace, k: u32, first: Lba, last: Lba) -> u32
    requires { at.0 + 16384 ≤ length copy.now }
    ensures { (e : List ℕ) → used e ≡ true → first.0 ≡ first_of e → last.0 ≡ last_of e → result ≡ first_overlap (part copy.now at.0 16384) k e }
{
    for j in 0..128 {
        let place = partition::inner::entry_place(at, j as usize);
        let met = checking::inner::overlaps(copy, place, first, last);
        if (j != k) & met {
            return j;
        }
    }
    128
}

// A refusal by a number with the slot at array place j, or none where j is past the last place.
fn of_slot(number: u32, j: u32) -> Why
    ensures { result ≡ when (ltb j 128) (of_slot number (j + 1)) }
{
    if j < 128 {
        return Why {
            number,
            slot: units::inner::slot_at(j),
            place: Place::Nowhere,
        };
    }
    why::FINE
}

// 22 with the lowest other slot of the front table that shares a block with a used entry.
fn overlap_check<'a>(front: &'a [u8], b: u64, slot: Slot, e: &'a [u8]) -> Why
    requires { (b ≤ 4096) × (length front.now ≡ b + 16384) × (length e.now ≡ 128) × (used e.now ≡ true) }
    ensures { result ≡ overlap_check (copy_in b Front front.now).array (slot.0 - 1) e.now }
{
    let first = partition::inner::first_at(e, BytePlace(0));
    let last = partition::inner::last_at(e, BytePlace(0));
    let array = tables::inner::array_in(b, false);
    let k = units::inner::array_place(slot);
    of_slot(22, first_overlap(front, array, k, first, last))
}

// 25 with the lowest other used slot of the front table that has an entry's partition GUID.
fn twin_check<'a>(front: &'a [u8], b: u64, slot: Slot, e: &'a [u8]) -> Why
    requires { (b ≤ 4096) × (length front.now ≡ b + 16384) × (length e.now ≡ 128) }
    ensures { result ≡ twin_check (copy_in b Front front.now).array (slot.0 - 1) e.now }
{
    let array = tables::inner::array_in(b, false);
    let k = units::inner::array_place(slot);
    let guid = partition::inner::guid_place(BytePlace(0));
    let from = guid.0;
    of_slot(
        25,
        twins::inner::first_twin(front, array, k, &e[from..from + 16]),
    )
}

// The first of two refusals, and where it is none the second.
fn or_else(one: Why, two: Why) -> Why
    ensures { result ≡ or_else one two }
{
    if one.number != 0 {
        return one;
    }
    two
}

// 28 if the reserved part of a record's flags is not zero.
fn flag_check(reserved: u64) -> Why
    ensures { result ≡ flag_check reserved }
{
    if reserved != 0 {
        return why::RESERVED_FLAG;
    }
    why::FINE
}

// What put tests after the check: the record, then 22 over all slots, then 25, then 28. `reserved` is the reserved part of the record's flags, which e leaves out.
pub fn entry_check<'a>(
    front: &'a [u8],
    len: usize,
    b: u64,
    slot: Slot,
    e: &'a [u8],
    reserved: u64,
) -> Why
    requires { ((room_check b len).number ≡ 0) × (length front.now ≡ b + 16384) × (length e.now ≡ 128) }
    ensures { result ≡ entry_check b len (copy_in b Front front.now).array slot.0 e.now reserved }
{
    let wrong = record_check(e, slot, len, b);
    if wrong.number != 0 {
        return wrong;
    }
    let overlap = overlap_check(front, b, slot, e);
    let twin = twin_check(front, b, slot, e);
    or_else(overlap, or_else(twin, flag_check(reserved)))
}

// All that put tests, of an image.
pub fn put_check(img: &[u8], b: u64, slot: Slot, e: &[u8], reserved: u64) -> Why
    requires { length e.now ≡ 128 }
    ensures { result ≡ put_check b (length img.now) (tables b img.now) slot.0 e.now reserved }
{
    let found = checking::inner::check_with(img, b);
    if found.number != 0 {
        return found;
    }
    let size = b as usize;
    entry_check(
        &img[size..size + (size + 16384)],
        img.len(),
        b,
        slot,
        e,
        reserved,
    )
}

// The disk GUID in a copy's header.
pub fn kept_guid(copy: &[u8], b: u64, back: bool) -> Guid
    requires { (92 ≤ b) × (length copy.now ≡ b + 16384) }
    ensures { KeptGuid (copy_in b (side_of back) copy.now) result }
{
    let at = tables::inner::header_in(back);
    units::inner::guid_at(copy, at.0 + 56)
}

// How many bytes of the array follow a slot's entry.
fn bytes_after(slot: Slot) -> usize
    requires { bad_slot slot.0 ≡ false }
    ensures { result ≡ 128 * (128 - slot.0) }
{
    let k = units::inner::array_place(slot);
    128 * (127 - k as usize)
}

// The sum of a copy's array once a slot has other bytes, from the sum in its header, which the check has just confirmed.
fn sum_with(copy: &[u8], len: usize, b: u64, back: bool, slot: Slot, e: &[u8]) -> u32
    requires len_value { ((room_check b len).number ≡ 0) × (length copy.now ≡ b + 16384) }
    requires copy_value { (table_check b len (side_of back) (copy_in b (side_of back) copy.now)).number ≡ 0 }
    requires slot_value { (bad_slot slot.0 ≡ false) × (length e.now ≡ 128) }
    ensures { result ≡ crc (set_entry (copy_in b (side_of back) copy.now).array (slot.0 - 1) e.now) }
{
    let header = tables::inner::header_in(back);
    let sum = u32::get(copy, header.0 + 88);
    let place = tables::inner::slot_in(b, back, slot);
    let at = place.0;
    let after = bytes_after(slot);
    slot_sum::inner::sum_after(sum, &copy[at..at + 128], e, after)
}

// The change of one copy: the slot's bytes, and then the header's block.
pub fn change_copy(
    copy: &mut [u8],
    len: usize,
    b: u64,
    back: bool,
    slot: Slot,
    e: &[u8],
    guid: Guid,
    parts: u32,
)
    requires len_value { ((room_check b len).number ≡ 0) × (length copy.old ≡ b + 16384) }
    requires slot_value { (bad_slot slot.0 ≡ false) × (length e.now ≡ 128) }
    ensures { copy.new ≡ changed_bytes b len (side_of back) copy.old slot.0 e.now guid parts }
{
    tables::inner::put_slot(copy, b, back, slot, e);
    tables::inner::put_header(copy, len, b, back, guid, parts);
}

// The same of the copy at a place of an image.
pub fn change_at(
    s: &mut [u8],
    place: BytePlace,
    len: usize,
    b: u64,
    back: bool,
    slot: Slot,
    e: &[u8],
    guid: Guid,
    parts: u32,
)
    requires len_value { ((room_check b len).number ≡ 0) × (place.0 + (b + 16384) ≤ length s.old) }
    requires slot_value { (bad_slot slot.0 ≡ false) × (length e.now ≡ 128) }
    ensures { s.new ≡ sets s.old place.0 (changed_bytes b len (side_of back) (part s.old place.0 (b + 16384)) slot.0 e.now guid parts) }
{
    let at = place.0;
    let size = b as usize;
    change_copy(
        &mut s[at..at + (size + 16384)],
        len,
        b,
        back,
        slot,
        e,
        guid,
        parts,
    );
}

// The disk GUID of the front table, in an image or in whatever begins like one.
pub fn front_guid(s: &[u8], b: u64) -> Guid
    requires { (92 ≤ b) × (b ≤ 4096) × (b + (b + 16384) ≤ length s.now) }
    ensures { KeptGuid (copy_in b Front (part s.now b (b + 16384))) result }
{
    let size = b as usize;
    kept_guid(&s[size..size + (size + 16384)], b, false)
}

// The front array's sum once a slot has other bytes.
pub fn front_sum(s: &[u8], len: usize, b: u64, slot: Slot, e: &[u8]) -> u32
    requires len_value { ((room_check b len).number ≡ 0) × (b + (b + 16384) ≤ length s.now) }
    requires b_value { (table_check b len Front (copy_in b Front (part s.now b (b + 16384)))).number ≡ 0 }
    requires slot_value { (bad_slot slot.0 ≡ false) × (length e.now ≡ 128) }
    ensures { result ≡ crc (set_entry (copy_in b Front (part s.now b (b + 16384))).array (slot.0 - 1) e.now) }
{
    let size = b as usize;
    sum_with(&s[size..size + (size + 16384)], len, b, false, slot, e)
}

// The whole change of an image that the check accepts, the back table first. The new sum comes from the old one and the slot's bytes, before these are stored.
pub fn change(img: &mut [u8], b: u64, slot: Slot, e: &[u8])
    requires img_value { (check b (length img.old) (tables b img.old)).number ≡ 0 }
    requires slot_value { (bad_slot slot.0 ≡ false) × (length e.now ≡ 128) }
    ensures { img.new ≡ with_tables b img.old (changed b (length img.old) (tables b img.old) slot.0 e.now) }
{
    let len = img.len();
    let back = tables::inner::back_place(len, b);
    let guid = front_guid(img, b);
    let parts = front_sum(img, len, b, slot, e);
    change_at(img, back, len, b, true, slot, e, guid, parts);
    change_at(
        img,
        BytePlace(b as usize),
        len,
        b,
        false,
        slot,
        e,
        guid,
        parts,
    );
}
