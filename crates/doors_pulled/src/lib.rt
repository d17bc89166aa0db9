// Doors: the public calls of reader and staged once more, in one line each, under their own contracts word for word. Left out is reader::listing: what a call that lends a row promises is said once by rows::inner::meets.
// Nobody calls them. They are there to be changed: each edit under must-fail puts an impostor behind a door, and the door's contract must refuse it.
#![tactic(auto)]

ghost use Rattle.units.specs.Meanings.{means, card_means};
ghost use Rattle.std.specs.Prelude.{◌≡◌};
ghost use Rattle.units.specs.Answer.{Ends};
ghost use Rattle.partition.specs.Meanings.{next_means, read_means};
ghost use Rattle.reader.specs.Reader.{side_answer, reader_count, reader_next, reader_slot};
ghost use Rattle.reader.specs.Meanings.{copy_means};
ghost use Rattle.staged.specs.Numbers.{start_put, start_clear, next_stage, start_repair, next_repair};

use partition::Partition;
use reader::GoodCopy;
use staged::{Repair, Update};
use units::{Guid, Reason, Refusal, Slot};

pub fn good_copy(img: &[u8], b: u64) -> Result<GoodCopy, Refusal>
    ensures { copy_means result ≡ side_answer b img.now }
{
    reader::good_copy(img, b)
}

pub fn count_used(img: &[u8], b: u64) -> Result<u32, Refusal>
    ensures { means result ≡ reader_count b img.now }
{
    reader::count_used(img, b)
}

pub fn next_used(img: &[u8], b: u64, after: Slot) -> Result<Option<Slot>, Refusal>
    ensures { next_means result ≡ reader_next b img.now after.0 }
{
    reader::next_used(img, b, after)
}

pub fn read_slot(img: &[u8], b: u64, slot: Slot) -> Result<Option<Partition>, Refusal>
    ensures { read_means result ≡ reader_slot b img.now slot.0 }
{
    reader::read_slot(img, b, slot)
}

pub fn start_put(img: &mut [u8], b: u64, slot: Slot, p: Partition) -> Result<Update, Reason>
    ensures { Ends (start_put b img.old slot.0 p) (card_means result) img.new }
{
    staged::start_put(img, b, slot, p)
}

pub fn start_clear(img: &mut [u8], b: u64, slot: Slot) -> Result<Update, Reason>
    ensures { Ends (start_clear b img.old slot.0) (card_means result) img.new }
{
    staged::start_clear(img, b, slot)
}

pub fn next_stage(img: &mut [u8], b: u64, stage: u32, state: Update) -> Result<Update, Reason>
    ensures { Ends (next_stage b img.old stage state) (card_means result) img.new }
{
    staged::next_stage(img, b, stage, state)
}

pub fn start_repair(img: &mut [u8], b: u64) -> Result<Repair, Reason>
    ensures { Ends (start_repair b img.old) (card_means result) img.new }
{
    staged::start_repair(img, b)
}

pub fn next_repair(img: &mut [u8], b: u64, stage: u32, state: Repair) -> Result<Repair, Reason>
    ensures { Ends (next_repair b img.old stage state) (card_means result) img.new }
{
    staged::next_repair(img, b, stage, state)
}
