// Put, clear and repair in stages of one block store each, for cards that may be pulled between any two of them. What each stage stores and answers is in specs/Numbers.
// Here stand the public calls: each takes every image, every number and every state. A host has the device store what a stage changed before it makes the next one.
#![tactic(auto)]

pub mod inner; // inner.rt: what stage one fixes, each store, and the test of a later stage's state

ghost use Rattle.units.specs.Meanings.{card_means};
ghost use Rattle.units.specs.Answer.{Ends};
ghost use Rattle.staged.specs.Numbers.{start_put, start_clear, next_stage, start_repair, next_repair};

use partition::Partition;
use units::{Guid, Reason, Slot};

// A put or a clear between its stages: the next stage, what stage one fixed (the slot, its 128 bytes, the disk GUID and the sum of the new array), and the block size
// and the length in bytes of the image that it began on.
#[repr(C)]
#[derive(Clone, Copy, Debug, PartialEq, Eq)]
pub struct Update {
    pub next: u32,
    pub slot: Slot,
    pub b: u64,
    pub len: usize,
    pub entry: [u8; 128],
    pub guid: Guid,
    pub parts: u32,
}

// A repair between its stages: the next stage, whether the back table is the good one, its disk GUID and its array's sum, and the block size and the length in bytes
// of the image that it began on.
#[repr(C)]
#[derive(Clone, Copy, Debug, PartialEq, Eq)]
pub struct Repair {
    pub next: u32,
    pub back: bool,
    pub b: u64,
    pub len: usize,
    pub guid: Guid,
    pub parts: u32,
}

// Stage one of a put: its tests and numbers are put's, and where they pass the slot's bytes are stored in the back table. Nothing else may write the image before the last stage.
pub fn start_put(img: &mut [u8], b: u64, slot: Slot, p: Partition) -> Result<Update, Reason>
    ensures { Ends (start_put b img.old slot.0 p) (card_means result) img.new }
{
    let e = partition::inner::tidied_bytes(p);
    let reserved = p.flags.reserved;
    let found = card::changing::put_check(img, b, slot, &e, reserved);
    if found.number != 0 {
        return Err(found.reason());
    }
    Ok(inner::begin(img, b, slot, e))
}

// Stage one of a clear, likewise: its tests and numbers are clear's.
pub fn start_clear(img: &mut [u8], b: u64, slot: Slot) -> Result<Update, Reason>
    ensures { Ends (start_clear b img.old slot.0) (card_means result) img.new }
{
    let found = checking::inner::slot_check(img, b, slot);
    if found.number != 0 {
        return Err(found.reason());
    }
    Ok(inner::begin(img, b, slot, [0; 128]))
}

// A later stage of a put or a clear, 2 to 4: 1, then 26 if the state does not lead to it on an image of this length and block size. It stores one block.
pub fn next_stage(img: &mut [u8], b: u64, stage: u32, state: Update) -> Result<Update, Reason>
    ensures { Ends (next_stage b img.old stage state) (card_means result) img.new }
{
    let found = inner::next_check(img.len(), b, stage, state);
    if found != 0 {
        return Err(inner::by_number(found).reason());
    }
    inner::store_stage(img, state, stage);
    Ok(inner::onward(state))
}

// Stage one of a repair: 1, 8, 10, then 27 where neither table passes. It stores zeros over the header of the table that the reader does not take.
pub fn start_repair(img: &mut [u8], b: u64) -> Result<Repair, Reason>
    ensures { Ends (start_repair b img.old) (card_means result) img.new }
{
    let found = reader::inner::choose(img, b);
    if found.number != 0 {
        return Err(inner::by_number(found.number).reason());
    }
    let good = inner::repair_of(img, b, found.back);
    inner::store_zeros(img, b, !found.back);
    Ok(good)
}

// A later stage of a repair, up to A + 2, which is 34 with blocks of 512 bytes and 6 with 4,096: 1, then 26 as in an update. It stores one block.
pub fn next_repair(img: &mut [u8], b: u64, stage: u32, state: Repair) -> Result<Repair, Reason>
    ensures { Ends (next_repair b img.old stage state) (card_means result) img.new }
{
    let found = inner::next_repair_check(img.len(), b, stage, state);
    if found != 0 {
        return Err(inner::by_number(found).reason());
    }
    inner::store_repair(img, state, stage);
    Ok(inner::onward_repair(state))
}
