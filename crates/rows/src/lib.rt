// The entry array that a header names, read into a row of records that the caller lends.
// Here stands the public call: it takes every image, every number and every row. The two modules have the leaves for our own crates.
#![tactic(auto)]

pub mod by_type; // by_type.rt: entries of any size, by their types
pub mod inner; // inner.rt: plans, and how they are carried out

ghost use Rattle.units.specs.Meanings.{means};
ghost use Rattle.std.specs.Prelude.{◌≡◌, length};
ghost use Rattle.rows.specs.Row.{partitions_read, row_outcome, RowEnds};

use header::Header;
use partition::Partition;
use units::{Refusal, Slot};

// A present entry: its slot and its record.
#[derive(Clone, Copy)]
pub struct Entry {
    pub slot: Slot,
    pub partition: Partition,
}

// The present entries, ascending, into the first places of the row; the rest of the row stays, and the count is returned: 1, 3, 7, 2, 6, 15.
pub fn file_read_partitions(
    img: &[u8],
    h: Header,
    b: u64,
    row: &mut [Entry],
) -> Result<u32, Refusal>
    ensures { RowEnds (row_outcome (partitions_read img.now h b (length row.old)) row.old) (means result) row.new }
{
    let p = inner::plan_for(img, h, b);
    let q = inner::fill(img, p, row);
    q.answer()
}
