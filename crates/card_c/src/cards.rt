// The card calls for C. Each answer says where the card check refused (document 02, 5/13).
ghost use Rattle.std.specs.Prelude.{◌≡◌, ◌/◌, length};
ghost use Rattle.units.specs.Answer.{Ends};
ghost use Rattle.card.specs.Calls.{lay_outcome, put_outcome, clear_outcome, payload_outcome, place_answer, read_outcome};
ghost use Rattle.tables.specs.Check.{check_answer};
ghost use Rattle.listing.specs.Listing.{count_answer, next_answer, slot_read, nth_answer};
ghost use Rattle.listing.specs.LentRow.{listing_read};
ghost use Rattle.rows.specs.RowBytes.{bytes_outcome};
ghost use Rattle.answers_c.specs.Crossing.{outcome_to_c};
ghost use Rattle.card_c.specs.CardExports.{answer_to_c, card_stored_to_c, spot_to_c, card_count_to_c, card_next_to_c, card_held_to_c, used_to_c};

use crate::answers::{
    CardAnswer, CardCount, CardNext, CardSlotRead, CardSpot, CardStored, CardUsedRead,
};
use partition::Partition;
use units::{BytePlace, Guid, Slot};

// Lays an empty card: 1, 8, 10.
#[unsafe(no_mangle)]
pub extern "C" fn card_lay(img: &mut [u8], b: u64, guid: Guid) -> CardAnswer
    ensures { Ends (outcome_to_c answer_to_c (lay_outcome b img.old guid)) result img.new }
{
    card::lay(img, b, guid).into()
}

// The card check: 1, 8, 10; 4, 5, 16, 6 of each table, front or back; 17, with the disk GUID or a slot; 16, front.
#[unsafe(no_mangle)]
pub extern "C" fn card_check(img: &[u8], b: u64) -> CardAnswer
    ensures { result ≡ answer_to_c (check_answer b img.now) }
{
    card::check(img, b).into()
}

// Puts a record into a slot of both tables: 18, 19, 20, 21, 22, 25, 28 after the check.
#[unsafe(no_mangle)]
pub extern "C" fn card_put(img: &mut [u8], b: u64, slot: u32, partition: Partition) -> CardAnswer
    ensures { Ends (outcome_to_c answer_to_c (put_outcome b img.old slot partition)) result img.new }
{
    card::put(img, b, Slot(slot), partition).into()
}

// Clears a slot in both tables: 18 after the check.
#[unsafe(no_mangle)]
pub extern "C" fn card_clear(img: &mut [u8], b: u64, slot: u32) -> CardAnswer
    ensures { Ends (outcome_to_c answer_to_c (clear_outcome b img.old slot)) result img.new }
{
    card::clear(img, b, Slot(slot)).into()
}

// Writes bytes at a place of a slot's partition: 18, 23, 24 after the check.
#[unsafe(no_mangle)]
pub extern "C" fn card_write_payload(
    img: &mut [u8],
    b: u64,
    slot: u32,
    place: usize,
    bytes: &[u8],
) -> CardStored
    ensures { Ends (outcome_to_c card_stored_to_c (payload_outcome b img.old slot place bytes.now)) result img.new }
{
    card::write_payload(img, b, Slot(slot), BytePlace(place), bytes).into()
}

// Where a payload write of n bytes at a place of a slot's partition would store them: 18, 23, 24 after the check.
#[unsafe(no_mangle)]
pub extern "C" fn card_payload_place(
    img: &[u8],
    b: u64,
    slot: u32,
    place: usize,
    n: usize,
) -> CardSpot
    ensures { result ≡ spot_to_c (place_answer b img.now slot place n) }
{
    card::payload_place(img, b, Slot(slot), BytePlace(place), n).into()
}

// Reads bytes at a place of a slot's partition into lent ones: 18, 23, 24 after the check.
#[unsafe(no_mangle)]
pub extern "C" fn card_read_payload(
    img: &[u8],
    b: u64,
    slot: u32,
    place: usize,
    out: &mut [u8],
) -> CardStored
    ensures { Ends (outcome_to_c card_stored_to_c (read_outcome b img.now slot place out.old)) result out.new }
{
    card::read_payload(img, b, Slot(slot), BytePlace(place), out).into()
}

// How many slots are used: the check's numbers.
#[unsafe(no_mangle)]
pub extern "C" fn card_count_used(img: &[u8], b: u64) -> CardCount
    ensures { result ≡ card_count_to_c (count_answer b img.now) }
{
    listing::count_used(img, b).into()
}

// The first used slot after a slot, where slot 0 stands before the first: the check's numbers.
#[unsafe(no_mangle)]
pub extern "C" fn card_next_used(img: &[u8], b: u64, after: u32) -> CardNext
    ensures { result ≡ card_next_to_c (next_answer b img.now after) }
{
    listing::next_used(img, b, Slot(after)).into()
}

// What a slot holds: 18 after the check.
#[unsafe(no_mangle)]
pub extern "C" fn card_read_slot(img: &[u8], b: u64, slot: u32) -> CardSlotRead
    ensures { result ≡ card_held_to_c (slot_read b img.now slot) }
{
    listing::read_slot(img, b, Slot(slot)).into()
}

// Used slot k with its record, counted from 0: the check's numbers.
#[unsafe(no_mangle)]
pub extern "C" fn card_nth_used(img: &[u8], b: u64, k: u32) -> CardUsedRead
    ensures { result ≡ used_to_c (nth_answer b img.now k) }
{
    listing::nth_used(img, b, k).into()
}

// The listing into lent bytes, 136 bytes an entry, and how many there are: 15 after the check, where there are fewer bytes.
#[unsafe(no_mangle)]
pub extern "C" fn card_list(img: &[u8], b: u64, out: &mut [u8]) -> CardCount
    ensures { Ends (outcome_to_c card_count_to_c (bytes_outcome (listing_read b img.now (length out.old / 136)) out.old)) result out.new }
{
    let p = listing::inner::plan_of(img, b);
    let q = rows::inner::fill_bytes(img, p, out);
    listing::inner::count_by(q).into()
}
