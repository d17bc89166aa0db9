// Put, clear and repair in stages of one block store each, on two lent windows. Document 02, 10/13 and 6/13: each stage stores to one block of the head or of the tail,
// which a host then has the device store before it makes the next one. What each stage stores and answers is that of `staged`, and the windows' own numbers are in specs/Stages.
#![tactic(auto)]

pub mod inner; // inner.rt: each store, and the test of a later stage's state

ghost use Rattle.units.specs.Meanings.{card_means};
ghost use Rattle.std.specs.Prelude.{List, ℕ};
ghost use Rattle.staged.specs.Numbers.{start_repair};
ghost use Rattle.windows.specs.Windows.{window_outcome, WindowEnds};
ghost use Rattle.windows_staged.specs.Stages.{next_windowed, next_repair_windowed, start_clear_in, start_put_in};

use partition::Partition;
use staged::{Repair, Update};
use units::{Reason, Slot};

// Stage one of a put: its tests and numbers are those of put on windows, and where they pass the slot's bytes are stored in the tail. Nothing else may write the card before the last stage.
pub fn start_put(
    head: &mut [u8],
    tail: &mut [u8],
    blocks: u64,
    b: u64,
    slot: Slot,
    p: Partition,
) -> Result<Update, Reason>
    ensures { WindowEnds (start_put_in b blocks head.old tail.old slot.0 p) (card_means result) head.new tail.new }
{
    let e = partition::inner::tidied_bytes(p);
    let reserved = p.flags.reserved;
    let found = windows::inner::put_check_in(head, tail, blocks, b, slot, &e, reserved);
    found.verdict()?;
    Ok(inner::begin(head, tail, (blocks * b) as usize, b, slot, e))
}

// Stage one of a clear, likewise.
pub fn start_clear(
    head: &mut [u8],
    tail: &mut [u8],
    blocks: u64,
    b: u64,
    slot: Slot,
) -> Result<Update, Reason>
    ensures { WindowEnds (start_clear_in b blocks head.old tail.old slot.0) (card_means result) head.new tail.new }
{
    let found = windows::inner::slot_check_in(head, tail, blocks, b, slot);
    found.verdict()?;
    Ok(inner::begin(head, tail, (blocks * b) as usize, b, slot, [0; 128]))
}

// A later stage of a put or a clear, 2 to 4: 1, then 26 if the state does not lead to it on a card of so many blocks, then 32. It stores one block.
pub fn next_stage(
    head: &mut [u8],
    tail: &mut [u8],
    blocks: u64,
    b: u64,
    stage: u32,
    state: Update,
) -> Result<Update, Reason>
    ensures { WindowEnds (next_windowed b blocks head.old tail.old stage state) (card_means result) head.new tail.new }
{
    let found = inner::next_check(head.len(), tail.len(), blocks, b, stage, state);
    windows::inner::by_number(found).verdict()?;
    inner::store_stage(head, tail, state, stage);
    Ok(staged::inner::onward(state))
}

// Stage one of a repair: 1, 3, 8, 10, 32, then 27 where neither table passes. It stores zeros over the header of the table that the reader does not take.
pub fn start_repair(head: &mut [u8], tail: &mut [u8], blocks: u64, b: u64) -> Result<Repair, Reason>
    ensures { WindowEnds (window_outcome b blocks head.old tail.old (λ (xs : List ℕ). start_repair b xs)) (card_means result) head.new tail.new }
{
    let found = windows_reader::inner::choose_in(head, tail, blocks, b);
    windows::inner::by_number(found.number).verdict()?;
    let good = inner::repair_of(head, tail, (blocks * b) as usize, b, found.back);
    inner::store_zeros(head, tail, b, !found.back);
    Ok(good)
}

// A later stage of a repair, up to A + 2: 1, then 26 as in an update, then 32. It stores one block.
pub fn next_repair(
    head: &mut [u8],
    tail: &mut [u8],
    blocks: u64,
    b: u64,
    stage: u32,
    state: Repair,
) -> Result<Repair, Reason>
    ensures { WindowEnds (next_repair_windowed b blocks head.old tail.old stage state) (card_means result) head.new tail.new }
{
    let found = inner::next_repair_check(head.len(), tail.len(), blocks, b, stage, state);
    windows::inner::by_number(found).verdict()?;
    inner::store_repair(head, tail, state, stage);
    Ok(staged::inner::onward_repair(state))
}
