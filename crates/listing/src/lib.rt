// The listing of a card: how many slots are used, the next used slot, what a slot holds, and the used slots by their order, by value or into a row of records that the caller lends.
// Here stand the public calls: each is the card check and then a leaf of `inner`. What each answer is, is in specs/Listing.
#![tactic(auto)]

pub mod inner; // inner.rt: the same of an image that was checked, for callers that check once and ask many times

ghost use Rattle.units.specs.Meanings.{card_means};
ghost use Rattle.std.specs.Prelude.{◌≡◌, length};
ghost use Rattle.rows.specs.Row.{row_outcome, RowEnds};
ghost use Rattle.listing.specs.LentRow.{listing_read};
ghost use Rattle.listing.specs.Listing.{count_answer, next_answer, slot_read, nth_answer};
ghost use Rattle.listing.specs.Meanings.{card_next_means, slot_means, used_means};

use partition::Partition;
use rows::Entry;
use units::{Reason, Slot};

// How many slots are used: the card check's numbers.
pub fn count_used(img: &[u8], b: u64) -> Result<u32, Reason>
    ensures { card_means result ≡ count_answer b img.now }
{
    checking::check(img, b)?;
    Ok(inner::used_count(img, b))
}

// The first used slot after a slot, where slot 0 stands before the first, if there is one: the card check's numbers.
pub fn next_used(img: &[u8], b: u64, after: Slot) -> Result<Option<Slot>, Reason>
    ensures { card_next_means result ≡ next_answer b img.now after.0 }
{
    checking::check(img, b)?;
    Ok(inner::used_after(img, b, after))
}

// What a slot holds, if its entry is present: 18 (bad slot) after the check.
pub fn read_slot(img: &[u8], b: u64, slot: Slot) -> Result<Option<Partition>, Reason>
    ensures { slot_means result ≡ slot_read b img.now slot.0 }
{
    let found = checking::inner::slot_check(img, b, slot);
    if found.number != 0 {
        return Err(found.reason());
    }
    Ok(inner::slot_found(img, b, slot))
}

// Used slot k with its record, counted from 0, ascending; none where k is not below the count: the card check's numbers.
pub fn nth_used(img: &[u8], b: u64, k: u32) -> Result<Option<Entry>, Reason>
    ensures { used_means result ≡ nth_answer b img.now k }
{
    checking::check(img, b)?;
    match inner::nth_slot(img, b, k) {
        None => Ok(None),
        Some(slot) => Ok(Some(Entry {
            slot,
            partition: inner::slot_entry(img, b, slot),
        })),
    }
}

// The used slots with their records, ascending, into the first places of the row; the rest of the row stays, and the count is returned: the card check's numbers, then 15.
pub fn listing(img: &[u8], b: u64, row: &mut [Entry]) -> Result<u32, Reason>
    ensures { RowEnds (row_outcome (listing_read b img.now (length row.old)) row.old) (card_means result) row.new }
{
    let p = inner::plan_of(img, b);
    let q = rows::inner::fill(img, p, row);
    inner::count_by(q)
}
