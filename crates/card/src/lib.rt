// The card: both tables laid, checked, changed and listed together, and payload written inside a partition. What each call promises is in specs/Calls.
// Here stand the public calls: each takes every image and every number.
#![tactic(auto)]

pub mod changing; // changing.rt: what put tests, and what put and clear store; leaves for our own crates, no public calls
pub mod laying; // laying.rt: what lay stores; leaves, likewise
pub mod payload; // payload.rt: where a slot's bytes stand, which is a public call; the rest are leaves, likewise

ghost use Rattle.units.proofs.Chains.{found};
ghost use Rattle.units.specs.Answer.{Ends};
ghost use Rattle.units.specs.Meanings.{card_means};
ghost use Rattle.card.specs.Calls.{lay_outcome, put_outcome, clear_outcome, payload_outcome, read_outcome};

pub use checking::check;
pub use listing::{count_used, listing, next_used, nth_used, read_slot};
use partition::Partition;
pub use payload::payload_place;
use units::why::Why;
use units::{BytePlace, Guid, Place, Reason, Slot};

// Lays an empty card for a disk GUID, the MBR and both tables: 1 bad block size, 8 and 10 too small.
pub fn lay(img: &mut [u8], b: u64, guid: Guid) -> Result<(), Reason>
    ensures { Ends (lay_outcome b img.old guid) (card_means result) img.new }
{
    let found = tables::inner::room_check(img.len(), b);
    if found != 0 {
        let refusal = Why {
            number: found,
            slot: Slot(0),
            place: Place::Nowhere,
        };
        return refusal.verdict();
    }
    laying::lay_card(img, b, guid);
    Ok(())
}

// Puts a record into a slot of both tables, the GUID kept: after the check 18 no such slot, 19 nil type, 20 last before first, 21 outside the usable blocks,
// 22 with the lowest other slot that shares a block, 25 with the lowest other slot that has the partition GUID, 28 a reserved flag.
pub fn put(img: &mut [u8], b: u64, slot: Slot, p: Partition) -> Result<(), Reason>
    ensures { Ends (put_outcome b img.old slot.0 p) (card_means result) img.new }
{
    let e = partition::inner::tidied_bytes(p);
    let reserved = p.flags.reserved;
    let found = changing::put_check(img, b, slot, &e, reserved);
    if found.number != 0 {
        return found.verdict();
    }
    changing::change(img, b, slot, &e);
    Ok(())
}

// Clears a slot in both tables, the GUID kept: 18 no such slot, after the check.
pub fn clear(img: &mut [u8], b: u64, slot: Slot) -> Result<(), Reason>
    ensures { Ends (clear_outcome b img.old slot.0) (card_means result) img.new }
{
    let found = checking::inner::slot_check(img, b, slot);
    if found.number != 0 {
        return found.verdict();
    }
    let e = [0u8; 128];
    changing::change(img, b, slot, &e);
    Ok(())
}

// Writes bytes at a place of a slot's partition, and nothing else: 18 no such slot, 23 unused, 24 past the partition's end, after the check. It gives how many bytes it stored.
pub fn write_payload(
    img: &mut [u8],
    b: u64,
    slot: Slot,
    place: BytePlace,
    bytes: &[u8],
) -> Result<usize, Reason>
    ensures { Ends (payload_outcome b img.old slot.0 place.0 bytes.now) (card_means result) img.new }
{
    let n = bytes.len();
    let at = payload::payload_place(img, b, slot, place, n)?;
    units::inner::put_bytes(img, at.0, bytes);
    Ok(n)
}

// Reads bytes at a place of a slot's partition into lent ones, as many as these are: the numbers of a payload write. It gives how many it read.
pub fn read_payload(
    img: &[u8],
    b: u64,
    slot: Slot,
    place: BytePlace,
    out: &mut [u8],
) -> Result<usize, Reason>
    ensures { Ends (read_outcome b img.now slot.0 place.0 out.old) (card_means result) out.new }
{
    let n = out.len();
    let at = payload::payload_place(img, b, slot, place, n)?;
    let from = at.0;
    units::inner::put_bytes(out, 0, &img[from..from + n]);
    Ok(n)
}
