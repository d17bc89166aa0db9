// The card calls for C on two windows of a card and its stated number of blocks (document 02, 10/13): 1, 3 where the blocks pass 64 bits, 8, 10, 32 where a window has
// another length, and then the numbers of the call on an image.
ghost use Rattle.std.specs.Prelude.{◌≡◌, List, ℕ};
ghost use Rattle.units.specs.Answer.{Ends};
ghost use Rattle.card.specs.Calls.{lay_outcome, put_outcome, clear_outcome, place_answer};
ghost use Rattle.tables.specs.Check.{check_answer};
ghost use Rattle.listing.specs.Listing.{count_answer, next_answer, slot_read, nth_answer};
ghost use Rattle.ground.specs.Answers.{RowsEnd};
ghost use Rattle.slot_map.specs.Map.{made_answer};
ghost use Rattle.windows.specs.Windows.{window_answer, WindowEnds};
ghost use Rattle.windows_listing.specs.Ground.{ground_in};
ghost use Rattle.answers_c.specs.Crossing.{outcome_to_c};
ghost use Rattle.card_c.specs.CardExports.{answer_to_c, spot_to_c, card_count_to_c, card_next_to_c, card_held_to_c, used_to_c, MadeToC};
ghost use Rattle.card_c.specs.Windows.{window_told, window_list, runs_to_c};

use crate::answers::{CardAnswer, CardCount, CardNext, CardSlotRead, CardSpot, CardUsedRead};
use crate::maps::CardMapMade;
use partition::Partition;
use units::{BytePlace, Guid, Slot};

// Lays an empty card: the windows' own numbers alone.
#[unsafe(no_mangle)]
pub extern "C" fn card_window_lay(
    head: &mut [u8],
    tail: &mut [u8],
    blocks: u64,
    b: u64,
    guid: Guid,
) -> CardAnswer
    ensures { WindowEnds (window_told answer_to_c b blocks head.old tail.old (λ (xs : List ℕ). lay_outcome b xs guid)) result head.new tail.new }
{
    windows::lay(head, tail, blocks, b, guid).into()
}

// The card check.
#[unsafe(no_mangle)]
pub extern "C" fn card_window_check<'a>(
    head: &'a [u8],
    tail: &'a [u8],
    blocks: u64,
    b: u64,
) -> CardAnswer
    ensures { result ≡ answer_to_c (window_answer b blocks head.now tail.now (check_answer b)) }
{
    windows::check(head, tail, blocks, b).into()
}

// Puts a record into a slot of both tables.
#[unsafe(no_mangle)]
pub extern "C" fn card_window_put(
    head: &mut [u8],
    tail: &mut [u8],
    blocks: u64,
    b: u64,
    slot: u32,
    p: Partition,
) -> CardAnswer
    ensures { WindowEnds (window_told answer_to_c b blocks head.old tail.old (λ (xs : List ℕ). put_outcome b xs slot p)) result head.new tail.new }
{
    windows::put(head, tail, blocks, b, Slot(slot), p).into()
}

// Clears a slot in both tables.
#[unsafe(no_mangle)]
pub extern "C" fn card_window_clear(
    head: &mut [u8],
    tail: &mut [u8],
    blocks: u64,
    b: u64,
    slot: u32,
) -> CardAnswer
    ensures { WindowEnds (window_told answer_to_c b blocks head.old tail.old (λ (xs : List ℕ). clear_outcome b xs slot)) result head.new tail.new }
{
    windows::clear(head, tail, blocks, b, Slot(slot)).into()
}

// How many slots are used.
#[unsafe(no_mangle)]
pub extern "C" fn card_window_count_used<'a>(
    head: &'a [u8],
    tail: &'a [u8],
    blocks: u64,
    b: u64,
) -> CardCount
    ensures { result ≡ card_count_to_c (window_answer b blocks head.now tail.now (count_answer b)) }
{
    windows_listing::count_used(head, tail, blocks, b).into()
}

// The first used slot after a slot, where slot 0 stands before the first.
#[unsafe(no_mangle)]
pub extern "C" fn card_window_next_used<'a>(
    head: &'a [u8],
    tail: &'a [u8],
    blocks: u64,
    b: u64,
    after: u32,
) -> CardNext
    ensures { result ≡ card_next_to_c (window_answer b blocks head.now tail.now (λ (xs : List ℕ). next_answer b xs after)) }
{
    windows_listing::next_used(head, tail, blocks, b, Slot(after)).into()
}

// What a slot holds.
#[unsafe(no_mangle)]
pub extern "C" fn card_window_read_slot<'a>(
    head: &'a [u8],
    tail: &'a [u8],
    blocks: u64,
    b: u64,
    slot: u32,
) -> CardSlotRead
    ensures { result ≡ card_held_to_c (window_answer b blocks head.now tail.now (λ (xs : List ℕ). slot_read b xs slot)) }
{
    windows_listing::read_slot(head, tail, blocks, b, Slot(slot)).into()
}

// Used slot k with its record, counted from 0.
#[unsafe(no_mangle)]
pub extern "C" fn card_window_nth_used<'a>(
    head: &'a [u8],
    tail: &'a [u8],
    blocks: u64,
    b: u64,
    k: u32,
) -> CardUsedRead
    ensures { result ≡ used_to_c (window_answer b blocks head.now tail.now (λ (xs : List ℕ). nth_answer b xs k)) }
{
    windows_listing::nth_used(head, tail, blocks, b, k).into()
}

// The listing into lent bytes, 136 bytes an entry, and how many there are: 15 last, where there are fewer bytes.
#[unsafe(no_mangle)]
pub extern "C" fn card_window_list<'a>(
    head: &'a [u8],
    tail: &'a [u8],
    blocks: u64,
    b: u64,
    out: &mut [u8],
) -> CardCount
    ensures { Ends (outcome_to_c card_count_to_c (window_list b blocks head.now tail.now out.old)) result out.new }
{
    let p = windows_listing::inner::plan_in(head, tail, blocks, b);
    let q = rows::inner::fill_bytes(head, p, out);
    listing::inner::count_by(q).into()
}

// The free runs into two lent rows of numbers, and how many there are: 15 last, where either row is shorter.
#[unsafe(no_mangle)]
pub extern "C" fn card_window_free_runs<'a>(
    head: &'a [u8],
    tail: &'a [u8],
    blocks: u64,
    b: u64,
    starts: &mut [u64],
    lengths: &mut [u64],
) -> CardCount
    ensures { RowsEnd (runs_to_c (ground_in b blocks head.now tail.now starts.old lengths.old)) result starts.new lengths.new }
{
    windows_listing::free_runs(head, tail, blocks, b, starts, lengths).into()
}

// The map of the used slots.
#[unsafe(no_mangle)]
pub extern "C" fn card_window_map_make<'a>(
    head: &'a [u8],
    tail: &'a [u8],
    blocks: u64,
    b: u64,
) -> CardMapMade
    ensures { MadeToC (window_answer b blocks head.now tail.now (made_answer b)) result }
{
    windows_listing::slot_map(head, tail, blocks, b).into()
}

// Where n bytes at a place of a slot's partition stand in the card.
#[unsafe(no_mangle)]
pub extern "C" fn card_window_payload_place<'a>(
    head: &'a [u8],
    tail: &'a [u8],
    blocks: u64,
    b: u64,
    slot: u32,
    place: usize,
    n: usize,
) -> CardSpot
    ensures { result ≡ spot_to_c (window_answer b blocks head.now tail.now (λ (xs : List ℕ). place_answer b xs slot place n)) }
{
    windows_listing::payload_place(head, tail, blocks, b, Slot(slot), BytePlace(place), n).into()
}
