// Leaves for our own crates: each `requires` is what its caller has tested. No public calls.
// `head` and `tail` are two windows of a card of `blocks` blocks, as in `windows::inner`; `len` is the card's length in bytes.
ghost use Rattle.std.specs.Prelude.{◌≡◌, false, ◌+◌, ◌*◌, ◌≤◌, length};
ghost use Rattle.tables.specs.Lens.{side_of, copy_at};
ghost use Rattle.tables.specs.Check.{room_check, table_check, check, bad_slot};
ghost use Rattle.staged.specs.Stages.{fixed};
ghost use Rattle.staged.specs.Repairs.{repair_from};
ghost use Rattle.windows.specs.Windows.{head_long, tail_long, window_tables};
ghost use Rattle.windows_staged.specs.Stages.{next_why, next_repair_why, StageStored, ZerosStored, BlockStored, HeaderStored, RepairStored};

use staged::{Repair, Update};
use units::{Slot, why};

// The state does not lead to the stage that was called.
const WRONG_STAGE: u32 = 26;

// Stage k of an update, 1 to 4: in the tail at 1 and 2, the slot's bytes at 1 and 3.
pub fn store_stage(head: &mut [u8], tail: &mut [u8], u: Update, k: u32)
    requires { ((room_check u.b u.len).number ≡ 0) × (bad_slot u.slot.0 ≡ false) × (length head.old ≡ head_long u.b) × (length tail.old ≡ tail_long u.b) }
    ensures { StageStored u k head.old tail.old head.new tail.new }
{
    let header = (k == 2) | (k == 4);
    if k < 3 {
        staged::inner::store_copy(tail, u, true, header);
        return;
    }
    let size = u.b as usize;
    staged::inner::store_copy(&mut head[size..size + (size + 16384)], u, false, header);
}

// The number that refuses a later stage of an update, or 0: 1 bad block size, 26 wrong stage, 32 a window's length.
pub fn next_check(head: usize, tail: usize, blocks: u64, b: u64, k: u32, u: Update) -> u32
    ensures { result ≡ (next_why b blocks head tail k u).number }
{
    if !units::good_block_size(b) {
        return why::BAD_BLOCK_SIZE;
    }
    if 0xFFFF_FFFF_FFFF_FFFF / b < blocks {
        return WRONG_STAGE;
    }
    let found = staged::inner::next_check((blocks * b) as usize, b, k, u);
    let length = windows::inner::length_check(head, tail, b);
    windows::inner::first_of(found, length)
}

// What stage one of a repair fixes, where the good table is on a side.
pub fn repair_of<'a>(head: &'a [u8], tail: &'a [u8], len: usize, b: u64, back: bool) -> Repair
    requires len_value { ((room_check b len).number ≡ 0) × (length head.now ≡ head_long b) × (length tail.now ≡ tail_long b) }
    requires tail_value { (table_check b len (side_of back) (copy_at (side_of back) (window_tables b head.now tail.now))).number ≡ 0 }
    ensures { result ≡ repair_from b len (window_tables b head.now tail.now) back }
{
    if back {
        return staged::inner::repair_by(tail, len, b, true);
    }
    let size = b as usize;
    staged::inner::repair_by(&head[size..size + (size + 16384)], len, b, false)
}

// Zeros in the header's block of a side: stage one of a repair.
pub fn store_zeros(head: &mut [u8], tail: &mut [u8], b: u64, back: bool)
    requires { (b ≤ 4096) × (length head.old ≡ head_long b) × (length tail.old ≡ tail_long b) }
    ensures { ZerosStored b (side_of back) head.old tail.old head.new tail.new }
{
    if back {
        staged::inner::zero_header(tail, b, true);
        return;
    }
    let size = b as usize;
    staged::inner::zero_header(&mut head[size..size + (size + 16384)], b, false);
}

// Block j of a side's array, as the other side's has it: from one window into the other.
fn store_block(head: &mut [u8], tail: &mut [u8], b: u64, back: bool, j: u64)
    requires { (b ≤ 4096) × (length head.old ≡ head_long b) × (length tail.old ≡ tail_long b) × (j * b + b ≤ 16384) }
    ensures { BlockStored b (side_of back) j head.old tail.old head.new tail.new }
{
    let size = b as usize;
    let skip = (j * b) as usize;
    let front = size + size + skip;
    if back {
        units::inner::put_bytes(tail, skip, &head[front..front + size]);
        return;
    }
    units::inner::put_bytes(head, front, &tail[skip..skip + size]);
}

// The header's block of the side that a repair writes.
fn store_header(head: &mut [u8], tail: &mut [u8], r: Repair, back: bool)
    requires { ((room_check r.b r.len).number ≡ 0) × (length head.old ≡ head_long r.b) × (length tail.old ≡ tail_long r.b) }
    ensures { HeaderStored r (side_of back) head.old tail.old head.new tail.new }
{
    let guid = r.guid;
    if back {
        tables::inner::put_header(tail, r.len, r.b, true, guid, r.parts);
        return;
    }
    let size = r.b as usize;
    tables::inner::put_header(
        &mut head[size..size + (size + 16384)],
        r.len,
        r.b,
        false,
        guid,
        r.parts,
    );
}

// Stage k of a repair, from 2 on: a block of the array, or the header at the last stage.
pub fn store_repair(head: &mut [u8], tail: &mut [u8], r: Repair, k: u32)
    requires { ((room_check r.b r.len).number ≡ 0) × (length head.old ≡ head_long r.b) × (length tail.old ≡ tail_long r.b) × (2 ≤ k) }
    ensures { RepairStored r k head.old tail.old head.new tail.new }
{
    let back = !r.back;
    let j = (k - 2) as u64;
    if j < 16384 / r.b {
        store_block(head, tail, r.b, back, j);
        return;
    }
    store_header(head, tail, r, back);
}

// The number that refuses a later stage of a repair, or 0: 1 bad block size, 26 wrong stage, 32 a window's length.
pub fn next_repair_check(head: usize, tail: usize, blocks: u64, b: u64, k: u32, r: Repair) -> u32
    ensures { result ≡ (next_repair_why b blocks head tail k r).number }
{
    if !units::good_block_size(b) {
        return why::BAD_BLOCK_SIZE;
    }
    if 0xFFFF_FFFF_FFFF_FFFF / b < blocks {
        return WRONG_STAGE;
    }
    let wrong = staged::inner::next_repair_check((blocks * b) as usize, b, k, r);
    let length = windows::inner::length_check(head, tail, b);
    windows::inner::first_of(wrong, length)
}

// Stage one of an update, once the check has accepted the windows and the slot: what it fixes, and its store.
pub fn begin(
    head: &mut [u8],
    tail: &mut [u8],
    len: usize,
    b: u64,
    slot: Slot,
    e: [u8; 128],
) -> Update
    requires { (length head.old ≡ head_long b) × (length tail.old ≡ tail_long b) × ((check b len (window_tables b head.old tail.old)).number ≡ 0) × (bad_slot slot.0 ≡ false) }
    ensures value { result ≡ fixed b len (window_tables b head.old tail.old) slot.0 e }
    ensures stage_stored { StageStored result 1 head.old tail.old head.new tail.new }
{
    let u = staged::inner::fix(head, len, b, slot, e);
    store_stage(head, tail, u, 1);
    u
}
