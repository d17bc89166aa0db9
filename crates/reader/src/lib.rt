// The reader of a card that may have been pulled in the middle of an update: it takes the front table if its header, layout, array and entries pass, else the back one by
// the same tests. Here stand the public calls: each takes every image and every number. What each answer is, is in specs/Reader.
#![tactic(auto)]

pub mod inner; // inner.rt: which of two tables passes, and where its array stands

ghost use Rattle.units.specs.Meanings.{means};
ghost use Rattle.std.specs.Prelude.{◌≡◌, length};
ghost use Rattle.partition.specs.Meanings.{next_means, read_means};
ghost use Rattle.rows.specs.Row.{row_outcome, RowEnds};
ghost use Rattle.reader.specs.Reader.{side_answer, reader_count, reader_next, reader_slot, reader_read};
ghost use Rattle.reader.specs.Meanings.{copy_means};

use partition::Partition;
use rows::Entry;
use units::{Refusal, Slot};

// The table that the reader takes.
#[derive(Clone, Copy, Debug, PartialEq, Eq)]
pub enum GoodCopy {
    Front,
    Back,
}

// Which table the reader takes: 1 bad block size, 8 and 10 too small, 27 neither passes.
pub fn good_copy(img: &[u8], b: u64) -> Result<GoodCopy, Refusal>
    ensures { copy_means result ≡ side_answer b img.now }
{
    let found = inner::choose(img, b);
    if found.number != 0 {
        return Err(found.refusal());
    }
    if found.back {
        return Ok(GoodCopy::Back);
    }
    Ok(GoodCopy::Front)
}

// How many slots of that table are used: 1, 8, 10, 27.
pub fn count_used(img: &[u8], b: u64) -> Result<u32, Refusal>
    ensures { means result ≡ reader_count b img.now }
{
    let found = inner::choose(img, b);
    if found.number != 0 {
        return Err(found.refusal());
    }
    let at = inner::array_byte_place(img.len(), b, found.back);
    let from = at.0;
    Ok(partition::inner::count_present(&img[from..from + 16384], 0, 128))
}

// The first used slot of that table after a slot, where slot 0 stands before the first, if there is one: 1, 8, 10, 27.
pub fn next_used(img: &[u8], b: u64, after: Slot) -> Result<Option<Slot>, Refusal>
    ensures { next_means result ≡ reader_next b img.now after.0 }
{
    let found = inner::choose(img, b);
    if found.number != 0 {
        return Err(found.refusal());
    }
    let at = inner::array_byte_place(img.len(), b, found.back);
    let from = at.0;
    Ok(partition::inner::next_present(&img[from..from + 16384], 0, 128, after))
}

// What a slot of that table holds, if its entry is present: 1, 8, 10, 27, then 18 (no such slot).
pub fn read_slot(img: &[u8], b: u64, slot: Slot) -> Result<Option<Partition>, Refusal>
    ensures { read_means result ≡ reader_slot b img.now slot.0 }
{
    let found = inner::choose(img, b);
    if found.number != 0 {
        return Err(found.refusal());
    }
    if tables::inner::bad_slot(slot) {
        return Err(Refusal::BadSlot);
    }
    let at = inner::array_byte_place(img.len(), b, found.back);
    let from = at.0;
    Ok(inner::slot_in(&img[from..from + 16384], slot))
}

// The used slots of that table with their records, ascending, into the first places of the row; the rest of the row stays, and the count is returned: 1, 8, 10, 27, 15.
pub fn listing(img: &[u8], b: u64, row: &mut [Entry]) -> Result<u32, Refusal>
    ensures { RowEnds (row_outcome (reader_read b img.now (length row.old)) row.old) (means result) row.new }
{
    let p = inner::plan_of(img, b);
    let q = rows::inner::fill(img, p, row);
    q.answer()
}
