// The pulled card for C on two windows: the reader, and put, clear and repair in stages of one block store (document 02, 10/13 and 6/13).
ghost use Rattle.std.specs.Prelude.{◌≡◌, List, ℕ};
ghost use Rattle.units.specs.Answer.{Ends};
ghost use Rattle.reader.specs.Reader.{side_answer, reader_count, reader_next, reader_slot};
ghost use Rattle.staged.specs.Numbers.{start_put, start_clear, start_repair};
ghost use Rattle.windows.specs.Windows.{window_answer, WindowEnds};
ghost use Rattle.windows_staged.specs.Stages.{next_windowed, next_repair_windowed};
ghost use Rattle.answers_c.specs.Crossing.{outcome_to_c, count_to_c, next_to_c, held_to_c};
ghost use Rattle.card_c.specs.CardExports.{copy_to_c, update_to_c, repair_to_c};
ghost use Rattle.card_c.specs.Windows.{window_to_c, window_told, window_reader_list};

use crate::pulled::{CardCopy, CardRepairStep, CardUpdateStep};
use answers_c::{GptCount, GptNext, GptSlotRead};
use partition::Partition;
use staged::{Repair, Update};
use units::Slot;

// Which window's table the reader takes: 1, 3, 8, 10, 32, 27.
#[unsafe(no_mangle)]
pub extern "C" fn card_window_reader_copy<'a>(
    head: &'a [u8],
    tail: &'a [u8],
    blocks: u64,
    b: u64,
) -> CardCopy
    ensures { result ≡ copy_to_c (window_answer b blocks head.now tail.now (side_answer b)) }
{
    windows_reader::good_copy(head, tail, blocks, b).into()
}

// How many slots of that table are used: 1, 3, 8, 10, 32, 27.
#[unsafe(no_mangle)]
pub extern "C" fn card_window_reader_count<'a>(
    head: &'a [u8],
    tail: &'a [u8],
    blocks: u64,
    b: u64,
) -> GptCount
    ensures { result ≡ count_to_c (window_answer b blocks head.now tail.now (reader_count b)) }
{
    windows_reader::count_used(head, tail, blocks, b).into()
}

// The first used slot of that table after a slot, where slot 0 stands before the first: 1, 3, 8, 10, 32, 27.
#[unsafe(no_mangle)]
pub extern "C" fn card_window_reader_next<'a>(
    head: &'a [u8],
    tail: &'a [u8],
    blocks: u64,
    b: u64,
    after: u32,
) -> GptNext
    ensures { result ≡ next_to_c (window_answer b blocks head.now tail.now (λ (xs : List ℕ). reader_next b xs after)) }
{
    windows_reader::next_used(head, tail, blocks, b, Slot(after)).into()
}

// What a slot of that table holds: 1, 3, 8, 10, 32, 27, 18.
#[unsafe(no_mangle)]
pub extern "C" fn card_window_reader_slot<'a>(
    head: &'a [u8],
    tail: &'a [u8],
    blocks: u64,
    b: u64,
    slot: u32,
) -> GptSlotRead
    ensures { result ≡ held_to_c (window_answer b blocks head.now tail.now (λ (xs : List ℕ). reader_slot b xs slot)) }
{
    windows_reader::read_slot(head, tail, blocks, b, Slot(slot)).into()
}

// That table's listing into lent bytes, 136 bytes an entry, and how many there are: 1, 3, 8, 10, 32, 27, 15 where there are fewer bytes.
#[unsafe(no_mangle)]
pub extern "C" fn card_window_reader_list<'a>(
    head: &'a [u8],
    tail: &'a [u8],
    blocks: u64,
    b: u64,
    out: &mut [u8],
) -> GptCount
    ensures { Ends (outcome_to_c count_to_c (window_reader_list b blocks head.now tail.now out.old)) result out.new }
{
    let p = windows_reader::inner::plan_in(head, tail, blocks, b);
    let part = windows_reader::good_part(head, tail, blocks, b);
    let q = rows::inner::fill_bytes(part, p, out);
    q.answer().into()
}

// Stage one of a put: put's numbers and places on windows.
#[unsafe(no_mangle)]
pub extern "C" fn card_window_start_put(
    head: &mut [u8],
    tail: &mut [u8],
    blocks: u64,
    b: u64,
    slot: u32,
    p: Partition,
) -> CardUpdateStep
    ensures { WindowEnds (window_told update_to_c b blocks head.old tail.old (λ (xs : List ℕ). start_put b xs slot p)) result head.new tail.new }
{
    windows_staged::start_put(head, tail, blocks, b, Slot(slot), p).into()
}

// Stage one of a clear: clear's numbers and places on windows.
#[unsafe(no_mangle)]
pub extern "C" fn card_window_start_clear(
    head: &mut [u8],
    tail: &mut [u8],
    blocks: u64,
    b: u64,
    slot: u32,
) -> CardUpdateStep
    ensures { WindowEnds (window_told update_to_c b blocks head.old tail.old (λ (xs : List ℕ). start_clear b xs slot)) result head.new tail.new }
{
    windows_staged::start_clear(head, tail, blocks, b, Slot(slot)).into()
}

// A later stage of a put or a clear: 1, 26, 32.
#[unsafe(no_mangle)]
pub extern "C" fn card_window_next_stage(
    head: &mut [u8],
    tail: &mut [u8],
    blocks: u64,
    b: u64,
    stage: u32,
    state: Update,
) -> CardUpdateStep
    ensures { WindowEnds (window_to_c update_to_c (next_windowed b blocks head.old tail.old stage state)) result head.new tail.new }
{
    windows_staged::next_stage(head, tail, blocks, b, stage, state).into()
}

// Stage one of a repair: 1, 3, 8, 10, 32, 27.
#[unsafe(no_mangle)]
pub extern "C" fn card_window_start_repair(
    head: &mut [u8],
    tail: &mut [u8],
    blocks: u64,
    b: u64,
) -> CardRepairStep
    ensures { WindowEnds (window_told repair_to_c b blocks head.old tail.old (λ (xs : List ℕ). start_repair b xs)) result head.new tail.new }
{
    windows_staged::start_repair(head, tail, blocks, b).into()
}

// A later stage of a repair: 1, 26, 32.
#[unsafe(no_mangle)]
pub extern "C" fn card_window_next_repair(
    head: &mut [u8],
    tail: &mut [u8],
    blocks: u64,
    b: u64,
    stage: u32,
    state: Repair,
) -> CardRepairStep
    ensures { WindowEnds (window_to_c repair_to_c (next_repair_windowed b blocks head.old tail.old stage state)) result head.new tail.new }
{
    windows_staged::next_repair(head, tail, blocks, b, stage, state).into()
}
