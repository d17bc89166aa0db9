// The card calls on two lent windows of a card and its stated number of blocks, for cards that are larger than memory: the head, blocks 0 to A + 1, and the tail, the last A + 1 blocks.
// Document 02, 10/13. Each call has the leaves of the call on an image, lent the parts of the windows; what it answers and leaves is in specs/Windows.
#![tactic(auto)]

pub mod inner; // inner.rt: the windows' own numbers, the tests and the stores

ghost use Rattle.std.specs.Prelude.{◌≡◌};
ghost use Rattle.units.specs.Meanings.{card_means};
ghost use Rattle.tables.specs.Check.{check_answer};
ghost use Rattle.windows.specs.Windows.{window_answer, WindowEnds, lay_in, put_in, clear_in};

use partition::Partition;
use units::{Guid, Reason, Slot};

// The card check: 1, 3 the blocks pass 64 bits, 8, 10, 32 a window's length, and then the card check's numbers.
pub fn check<'a>(head: &'a [u8], tail: &'a [u8], blocks: u64, b: u64) -> Result<(), Reason>
    ensures { card_means result ≡ window_answer b blocks head.now tail.now (check_answer b) }
{
    let found = inner::check_in(head, tail, blocks, b);
    found.verdict()
}

// Lays an empty card for a disk GUID: 1, 3, 8, 10, 32.
pub fn lay(head: &mut [u8], tail: &mut [u8], blocks: u64, b: u64, guid: Guid) -> Result<(), Reason>
    ensures { WindowEnds (lay_in b blocks head.old tail.old guid) (card_means result) head.new tail.new }
{
    let wrong = inner::window_check(head.len(), tail.len(), blocks, b);
    let refusal = inner::by_number(wrong);
    refusal.verdict()?;
    inner::lay_in(head, tail, (blocks * b) as usize, b, guid);
    Ok(())
}

// Puts a record into a slot of both tables: the check's numbers, and then put's.
pub fn put(
    head: &mut [u8],
    tail: &mut [u8],
    blocks: u64,
    b: u64,
    slot: Slot,
    p: Partition,
) -> Result<(), Reason>
    ensures { WindowEnds (put_in b blocks head.old tail.old slot.0 p) (card_means result) head.new tail.new }
{
    let e = partition::inner::tidied_bytes(p);
    let reserved = p.flags.reserved;
    let found = inner::put_check_in(head, tail, blocks, b, slot, &e, reserved);
    found.verdict()?;
    inner::change(head, tail, (blocks * b) as usize, b, slot, &e);
    Ok(())
}

// Clears a slot in both tables: the check's numbers, and then 18.
pub fn clear(
    head: &mut [u8],
    tail: &mut [u8],
    blocks: u64,
    b: u64,
    slot: Slot,
) -> Result<(), Reason>
    ensures { WindowEnds (clear_in b blocks head.old tail.old slot.0) (card_means result) head.new tail.new }
{
    let found = inner::slot_check_in(head, tail, blocks, b, slot);
    found.verdict()?;
    let e = [0u8; 128];
    inner::change(head, tail, (blocks * b) as usize, b, slot, &e);
    Ok(())
}
