// The reader of a card that may have been pulled, on two lent windows: which window has the good table, that part of it, and what it shows.
// Document 02, 10/13 and 6/13. The tests are those of `reader`; what each answer is, is in specs/Parts and in the definitions of `reader`.
#![tactic(auto)]

pub mod inner; // inner.rt: which of two windows passes, and where its array stands

ghost use Rattle.units.specs.Meanings.{means};
ghost use Rattle.std.specs.Prelude.{◌≡◌, List, ℕ, length};
ghost use Rattle.partition.specs.Meanings.{next_means, read_means};
ghost use Rattle.rows.specs.Row.{row_outcome, RowEnds};
ghost use Rattle.reader.specs.Reader.{side_answer, reader_count, reader_next, reader_slot};
ghost use Rattle.reader.specs.Meanings.{copy_means};
ghost use Rattle.windows.specs.Windows.{window_answer};
ghost use Rattle.windows_reader.specs.Parts.{good_part, good_from, part_read};

use partition::Partition;
use reader::GoodCopy;
use rows::Entry;
use units::{Refusal, Slot};

// Which window has the table that the reader takes: 1, 3, 8, 10, 32, and 27 where neither passes.
pub fn good_copy<'a>(
    head: &'a [u8],
    tail: &'a [u8],
    blocks: u64,
    b: u64,
) -> Result<GoodCopy, Refusal>
    ensures { copy_means result ≡ window_answer b blocks head.now tail.now (side_answer b) }
{
    let found = inner::choose_in(head, tail, blocks, b);
    if found.number != 0 {
        return Err(found.refusal());
    }
    if found.back {
        return Ok(GoodCopy::Back);
    }
    Ok(GoodCopy::Front)
}

// That table's array, 16,384 bytes of the head or of the tail, no copy made; an empty part of the head where `good_copy` refuses.
// What it holds and where it starts are both promised, since the two arrays may hold the same.
pub fn good_part<'a>(head: &'a [u8], tail: &'a [u8], blocks: u64, b: u64) -> &'a [u8]
    ensures result_value { result.now ≡ good_part b blocks head.now tail.now }
    ensures ref_ptr_value { result.ref_ptr ≡ good_from b blocks head.now tail.now head.entry.ref_ptr tail.entry.ref_ptr }
{
    let found = inner::choose_in(head, tail, blocks, b);
    if found.number != 0 {
        return &head[0..0];
    }
    let back = found.back;
    inner::array_of(head, tail, b, back)
}

// How many slots of that table are used: 1, 3, 8, 10, 32, 27.
pub fn count_used<'a>(head: &'a [u8], tail: &'a [u8], blocks: u64, b: u64) -> Result<u32, Refusal>
    ensures { means result ≡ window_answer b blocks head.now tail.now (reader_count b) }
{
    let found = inner::choose_in(head, tail, blocks, b);
    if found.number != 0 {
        return Err(found.refusal());
    }
    let array = inner::array_of(head, tail, b, found.back);
    Ok(partition::inner::count_present(array, 0, 128))
}

// The first used slot of that table after a slot, where slot 0 stands before the first, if there is one: 1, 3, 8, 10, 32, 27.
pub fn next_used<'a>(
    head: &'a [u8],
    tail: &'a [u8],
    blocks: u64,
    b: u64,
    after: Slot,
) -> Result<Option<Slot>, Refusal>
    ensures { next_means result ≡ window_answer b blocks head.now tail.now (λ (xs : List ℕ). reader_next b xs after.0) }
{
    let found = inner::choose_in(head, tail, blocks, b);
    if found.number != 0 {
        return Err(found.refusal());
    }
    let array = inner::array_of(head, tail, b, found.back);
    Ok(partition::inner::next_present(array, 0, 128, after))
}

// What a slot of that table holds, if its entry is present: 1, 3, 8, 10, 32, 27, then 18 (no such slot).
pub fn read_slot<'a>(
    head: &'a [u8],
    tail: &'a [u8],
    blocks: u64,
    b: u64,
    slot: Slot,
) -> Result<Option<Partition>, Refusal>
    ensures { read_means result ≡ window_answer b blocks head.now tail.now (λ (xs : List ℕ). reader_slot b xs slot.0) }
{
    let found = inner::choose_in(head, tail, blocks, b);
    if found.number != 0 {
        return Err(found.refusal());
    }
    if tables::inner::bad_slot(slot) {
        return Err(Refusal::BadSlot);
    }
    let array = inner::array_of(head, tail, b, found.back);
    Ok(reader::inner::slot_in(array, slot))
}

// The used slots of a part that was handed back, with their records, ascending, into the first places of the row; the rest of the row stays, and the count is returned: 2 where the part is
// shorter than an array, as an empty one is, and then 15.
pub fn list_part(part: &[u8], row: &mut [Entry]) -> Result<u32, Refusal>
    ensures { RowEnds (row_outcome (part_read part.now (length row.old)) row.old) (means result) row.new }
{
    let p = inner::plan_of(part);
    let q = rows::inner::fill(part, p, row);
    q.answer()
}
