// The second reading edition: headers and entry arrays of other makers, read by UEFI. The first edition, document 01's, is in `header`, `partition` and `rows`.
// Here stand the public calls: each takes every image, every number and every row. `inner` has the leaves for our own crates.
#![tactic(auto)]

pub mod inner;

ghost use Rattle.units.specs.Meanings.{means};
ghost use Rattle.std.specs.Prelude.{◌≡◌, length};
ghost use Rattle.partition.specs.Meanings.{read_means, next_means};
ghost use Rattle.rows.specs.Row.{row_outcome, RowEnds};
ghost use Rattle.rows.specs.Plans.{roomed};
ghost use Rattle.uefi.specs.Reading.{primary_by_uefi, backup_by_uefi};
ghost use Rattle.uefi.specs.Array.{counted, entries_by_uefi, after_by_uefi, entry_by_uefi, primary_entries, backup_entries};

use header::Header;
use partition::Partition;
use rows::{Entry, by_type};
use units::{Refusal, Slot};

// The primary header, in block 1: 1, 2, 4, 29, 5, 30, 31.
pub fn read_primary_header(img: &[u8], b: u64) -> Result<Header, Refusal>
    ensures { means result ≡ primary_by_uefi img.now b }
{
    inner::primary(img, b)
}

// The backup header, in the last whole block: 1, 8, 4, 29, 5, 30, 31.
pub fn read_backup_header(img: &[u8], b: u64) -> Result<Header, Refusal>
    ensures { means result ≡ backup_by_uefi img.now b }
{
    inner::backup(img, b)
}

// How many entries of the array that a header names are used: 1, 7, 3, 2, 6.
pub fn count_partitions(img: &[u8], h: Header, b: u64) -> Result<u32, Refusal>
    ensures { means result ≡ counted (entries_by_uefi img.now h b) }
{
    let p = inner::plan_for(img, h, b);
    p.answer()
}

// The first used slot after a slot, where slot 0 stands before the first: 1, 7, 3, 2, 6.
pub fn next_partition(img: &[u8], h: Header, b: u64, after: Slot) -> Result<Option<Slot>, Refusal>
    ensures { next_means result ≡ after_by_uefi img.now h b after.0 }
{
    let at = inner::array_place(img, h, b)?;
    Ok(by_type::next_used(img, at, h.part_size, h.num_parts, after))
}

// The entry in a slot of the array that a header names: 1, 7, 3, 2, 6, 18. An entry of nil type is absent, whatever else it holds.
pub fn read_partition(
    img: &[u8],
    h: Header,
    b: u64,
    slot: Slot,
) -> Result<Option<Partition>, Refusal>
    ensures { read_means result ≡ entry_by_uefi img.now h b slot.0 }
{
    let at = inner::slot_place(img, h, b, slot)?;
    Ok(inner::held_at(img, at))
}

// The used entries of the array that a header names, ascending, into the first places of the row; the rest of the row stays, and the count is returned: 1, 7, 3, 2, 6, 15.
pub fn file_read_partitions(
    img: &[u8],
    h: Header,
    b: u64,
    row: &mut [Entry],
) -> Result<u32, Refusal>
    ensures { RowEnds (row_outcome (roomed (length row.old) (entries_by_uefi img.now h b)) row.old) (means result) row.new }
{
    let p = inner::plan_for(img, h, b);
    let q = rows::inner::fill(img, p, row);
    q.answer()
}

// How many entries of the primary table are used, header and array in one: 1, 2, 4, 29, 5, 30, 31, 7, 3, 2, 6.
pub fn count_primary(img: &[u8], b: u64) -> Result<u32, Refusal>
    ensures { means result ≡ counted (primary_entries img.now b) }
{
    let p = inner::plan_primary(img, b);
    p.answer()
}

// The same of the backup table: 1, 8, 4, 29, 5, 30, 31, 7, 3, 2, 6.
pub fn count_backup(img: &[u8], b: u64) -> Result<u32, Refusal>
    ensures { means result ≡ counted (backup_entries img.now b) }
{
    let p = inner::plan_backup(img, b);
    p.answer()
}

// The used entries of the primary table, header and array in one, into the first places of the row: 1, 2, 4, 29, 5, 30, 31, 7, 3, 2, 6, 15.
pub fn list_primary(img: &[u8], b: u64, row: &mut [Entry]) -> Result<u32, Refusal>
    ensures { RowEnds (row_outcome (roomed (length row.old) (primary_entries img.now b)) row.old) (means result) row.new }
{
    let p = inner::plan_primary(img, b);
    let q = rows::inner::fill(img, p, row);
    q.answer()
}

// The same of the backup table: 1, 8, 4, 29, 5, 30, 31, 7, 3, 2, 6, 15.
pub fn list_backup(img: &[u8], b: u64, row: &mut [Entry]) -> Result<u32, Refusal>
    ensures { RowEnds (row_outcome (roomed (length row.old) (backup_entries img.now b)) row.old) (means result) row.new }
{
    let p = inner::plan_backup(img, b);
    let q = rows::inner::fill(img, p, row);
    q.answer()
}
