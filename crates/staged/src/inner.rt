// Leaves for our own crates: each `requires` is what its caller has tested. No public calls.
// `copy` is one table's own b + 16,384 bytes, as in `tables::inner`. An update or a repair goes by value, with all that its stores need but the blocks that a repair copies.
ghost use Rattle.std.specs.Prelude.{◌≡◌, false, ◌+◌, ◌*◌, ◌≤◌, ◌<◌, length};
ghost use Rattle.std.proofs.lemmas.List.Edits.{sets};
ghost use Rattle.units.specs.Answer.{plain};
ghost use Rattle.units.specs.Bytes.{part};
ghost use Rattle.tables.specs.Places.{array_blocks};
ghost use Rattle.tables.specs.Lens.{Front, side_of, copy_in, copy_at, Tables, tables};
ghost use Rattle.tables.specs.Entries.{zeros};
ghost use Rattle.tables.specs.Check.{room_check, table_check, bad_slot, check};
ghost use Rattle.staged.specs.Stages.{fixed};
ghost use Rattle.staged.specs.Repairs.{repair_from};
ghost use Rattle.staged.specs.Stores.{copy_place, store_in, store_bytes, stage_store, header_store, zero_store, block_store, repair_store};
ghost use Rattle.staged.specs.Numbers.{leads, next_check, leads_repair, next_repair_check, onward, onward_repair};
ghost use Rattle.tables.specs.Lens.{header_in};

use crate::{Repair, Update};
use units::inner::Field;
use units::why::Why;
use units::{BytePlace, Guid, Place, Slot, why};

// The state does not lead to the stage that was called.
const WRONG_STAGE: u32 = 26;

// Where a side's table starts in an image of len bytes.
pub fn copy_place(len: usize, b: u64, back: bool) -> BytePlace
    requires { (room_check b len).number ≡ 0 }
    ensures { (result.0 ≡ copy_place b len (side_of back)) × (result.0 + (b + 16384) ≤ len) }
{
    if back {
        return tables::inner::back_place(len, b);
    }
    BytePlace(b as usize)
}

// What stage one of an update fixes, for a card that the check accepts and a slot's new bytes. `s` is an image or whatever begins like one.
pub fn fix(s: &[u8], len: usize, b: u64, slot: Slot, e: [u8; 128]) -> Update
    requires len_value { ((room_check b len).number ≡ 0) × (b + (b + 16384) ≤ length s.now) }
    requires b_value { (table_check b len Front (copy_in b Front (part s.now b (b + 16384)))).number ≡ 0 }
    requires slot_value { bad_slot slot.0 ≡ false }
    ensures { (f : Tables) → copy_in b Front (part s.now b (b + 16384)) ≡ f.front → result ≡ fixed b len f slot.0 e }
{
    let guid = card::changing::front_guid(s, b);
    let parts = card::changing::front_sum(s, len, b, slot, &e);
    Update {
        next: 2,
        slot,
        b,
        len,
        entry: e,
        guid,
        parts,
    }
}

// One store of an update in the copy of a side: the header's block, or the slot's bytes.
pub fn store_copy(copy: &mut [u8], u: Update, back: bool, header: bool)
    requires { ((room_check u.b u.len).number ≡ 0) × (bad_slot u.slot.0 ≡ false) × (length copy.old ≡ u.b + 16384) }
    ensures { copy.new ≡ sets copy.old (store_in u.b (side_of back) u header) (store_bytes u.b u.len (side_of back) u header) }
{
    if header {
        tables::inner::put_header(copy, u.len, u.b, back, u.guid, u.parts);
        return;
    }
    let e = u.entry;
    tables::inner::put_slot(copy, u.b, back, u.slot, &e);
}

// Stage k of an update, 1 to 4, in the image that it began on: the back table at 1 and 2, the slot's bytes at 1 and 3.
pub fn store_stage(img: &mut [u8], u: Update, k: u32)
    requires len_value { ((room_check u.b u.len).number ≡ 0) × (bad_slot u.slot.0 ≡ false) × (length img.old ≡ u.len) }
    requires le_k { (1 ≤ k) × (k ≤ 4) }
    ensures { img.new ≡ stage_store u.b u.len u k img.old }
{
    let back = k < 3;
    let header = (k == 2) | (k == 4);
    let place = copy_place(u.len, u.b, back);
    let at = place.0;
    let size = u.b as usize;
    store_copy(&mut img[at..at + (size + 16384)], u, back, header);
}

// Stage one of an update, once the check has accepted the image and the slot: what it fixes, and its store.
pub fn begin(img: &mut [u8], b: u64, slot: Slot, e: [u8; 128]) -> Update
    requires { ((check b (length img.old) (tables b img.old)).number ≡ 0) × (bad_slot slot.0 ≡ false) }
    ensures value { result ≡ fixed b (length img.old) (tables b img.old) slot.0 e }
    ensures img_after { img.new ≡ stage_store b (length img.old) result 1 img.old }
{
    let u = fix(img, img.len(), b, slot, e);
    store_stage(img, u, 1);
    u
}

// Whether a state leads to stage k of an image of len bytes.
fn leads(len: usize, b: u64, k: u32, u: Update) -> bool
    ensures { result ≡ leads b len k u }
{
    let room = tables::inner::room_check(u.len, u.b);
    let wrong = tables::inner::bad_slot(u.slot);
    (k == u.next)
        & ((b == u.b)
            & ((len == u.len) & (((2 <= u.next) & (u.next <= 4)) & ((room == 0) & !wrong))))
}

// The number that refuses a later stage of an update, or 0: 1 bad block size, 26 wrong stage.
pub fn next_check(len: usize, b: u64, k: u32, u: Update) -> u32
    ensures { result ≡ (next_check b len k u).number }
{
    if !units::good_block_size(b) {
        return why::BAD_BLOCK_SIZE;
    }
    if !leads(len, b, k, u) {
        return WRONG_STAGE;
    }
    0
}

// What stage one of a repair fixes, from the bytes of the good table, which passes.
pub fn repair_by(copy: &[u8], len: usize, b: u64, back: bool) -> Repair
    requires len_value { ((room_check b len).number ≡ 0) × (length copy.now ≡ b + 16384) }
    requires copy_value { (table_check b len (side_of back) (copy_in b (side_of back) copy.now)).number ≡ 0 }
    ensures { (f : Tables) → copy_in b (side_of back) copy.now ≡ copy_at (side_of back) f → result ≡ repair_from b len f back }
{
    let guid = card::changing::kept_guid(copy, b, back);
    let at = tables::inner::header_in(back);
    let parts = u32::get(copy, at.0 + 88);
    Repair {
        next: 2,
        back,
        b,
        len,
        guid,
        parts,
    }
}

// The same of an image whose good table is on a side.
pub fn repair_of(img: &[u8], b: u64, back: bool) -> Repair
    requires img_value { (room_check b (length img.now)).number ≡ 0 }
    requires img_value_2 { (table_check b (length img.now) (side_of back) (copy_at (side_of back) (tables b img.now))).number ≡ 0 }
    ensures { result ≡ repair_from b (length img.now) (tables b img.now) back }
{
    let len = img.len();
    let place = copy_place(len, b, back);
    let at = place.0;
    let size = b as usize;
    repair_by(&img[at..at + (size + 16384)], len, b, back)
}

// Zeros in the header's block of a copy.
pub fn zero_header(copy: &mut [u8], b: u64, back: bool)
    requires { length copy.old ≡ b + 16384 }
    ensures { copy.new ≡ sets copy.old (header_in (side_of back)) (zeros b) }
{
    let at = tables::inner::header_in(back);
    units::inner::put_zeros(copy, at.0, b as usize);
}

// The same in an image of len bytes: stage one of a repair.
pub fn store_zeros(img: &mut [u8], b: u64, back: bool)
    requires { (room_check b (length img.old)).number ≡ 0 }
    ensures { img.new ≡ zero_store b (length img.old) (side_of back) img.old }
{
    let place = copy_place(img.len(), b, back);
    let at = place.0;
    let size = b as usize;
    zero_header(&mut img[at..at + (size + 16384)], b, back);
}

// Block j of a side's array, as the other side's has it.
fn store_block(img: &mut [u8], b: u64, back: bool, j: u64)
    requires { ((room_check b (length img.old)).number ≡ 0) × (j < array_blocks b) }
    ensures { img.new ≡ block_store b (length img.old) (side_of back) j img.old }
{
    let len = img.len();
    let from = reader::inner::array_byte_place(len, b, !back);
    let to = reader::inner::array_byte_place(len, b, back);
    let skip = (j * b) as usize;
    let start = from.0 + skip;
    img.copy_within(start..start + b as usize, to.0 + skip);
}

// The header's block of a side, as lay would write it for a GUID and an array's sum.
fn store_header(img: &mut [u8], b: u64, back: bool, guid: Guid, parts: u32)
    requires { (room_check b (length img.old)).number ≡ 0 }
    ensures { img.new ≡ header_store b (length img.old) (side_of back) guid parts img.old }
{
    let len = img.len();
    let place = copy_place(len, b, back);
    let at = place.0;
    let size = b as usize;
    tables::inner::put_header(&mut img[at..at + (size + 16384)], len, b, back, guid, parts);
}

// Stage k of a repair, from 2 on, in the image that it began on: a block of the array, or the header at the last stage.
pub fn store_repair(img: &mut [u8], r: Repair, k: u32)
    requires len_value { ((room_check r.b r.len).number ≡ 0) × (length img.old ≡ r.len) }
    requires le_k { (2 ≤ k) × (k ≤ array_blocks r.b + 2) }
    ensures { img.new ≡ repair_store r.b r.len r k img.old }
{
    let back = !r.back;
    let j = (k - 2) as u64;
    if j < 16384 / r.b {
        store_block(img, r.b, back, j);
        return;
    }
    store_header(img, r.b, back, r.guid, r.parts);
}

// Whether a state leads to stage k of a repair of an image of len bytes.
fn leads_repair(len: usize, b: u64, k: u32, r: Repair) -> bool
    ensures { result ≡ leads_repair b len k r }
{
    let room = tables::inner::room_check(r.len, r.b);
    if room != 0 {
        return false;
    }
    let last = 16384 / r.b + 2;
    let next = r.next;
    (k == next) & ((b == r.b) & ((len == r.len) & ((2 <= next) & (next as u64 <= last))))
}

// The number that refuses a later stage of a repair, or 0: 1 bad block size, 26 wrong stage.
pub fn next_repair_check(len: usize, b: u64, k: u32, r: Repair) -> u32
    ensures { result ≡ (next_repair_check b len k r).number }
{
    if !units::good_block_size(b) {
        return why::BAD_BLOCK_SIZE;
    }
    if !leads_repair(len, b, k, r) {
        return WRONG_STAGE;
    }
    0
}

// The state after the stage that it led to.
pub fn onward(u: Update) -> Update
    requires { u.next ≤ 4 }
    ensures { result ≡ onward u }
{
    let entry = u.entry;
    let guid = u.guid;
    let slot = u.slot;
    Update {
        next: u.next + 1,
        slot,
        b: u.b,
        len: u.len,
        entry,
        guid,
        parts: u.parts,
    }
}

// The same of a repair.
pub fn onward_repair(r: Repair) -> Repair
    requires { r.next ≤ 34 }
    ensures { result ≡ onward_repair r }
{
    let guid = r.guid;
    Repair {
        next: r.next + 1,
        back: r.back,
        b: r.b,
        len: r.len,
        guid,
        parts: r.parts,
    }
}

// A refusal by a number that names nothing.
pub fn by_number(number: u32) -> Why
    ensures { result ≡ plain number }
{
    Why {
        number,
        slot: Slot(0),
        place: Place::Nowhere,
    }
}
