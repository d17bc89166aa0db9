// Doors: the public calls of units, crc32 and slot_sum once more, in one line each, under their own contracts word for word.
// Nobody calls them. They are there to be changed: each edit under must-fail puts an impostor behind a door, and the door's contract must refuse it.
#![tactic(auto)]

ghost use Rattle.std.specs.Prelude.{◌≡◌};
ghost use Rattle.units.specs.Refusals.{number};
ghost use Rattle.units.specs.Places.{good_size, inside, place_of, place_after, block_of, array_place_of, slot_of};
ghost use Rattle.units.specs.Numbers.{width_of, number_read};
ghost use Rattle.units.specs.Guids.{guid_read, is_nil, nil_guid};
ghost use Rattle.units.specs.Meanings.{means};
ghost use Rattle.crc32.specs.Crc.{crc_from, crc};
ghost use Rattle.crc32.specs.HeaderSum.{header_sum};
ghost use Rattle.slot_sum.specs.SlotSum.{slot_sum};

use units::{BytePlace, Guid, Lba, Refusal, Slot, Width};

pub fn refusal_number(w: Refusal) -> u32
    ensures { result ≡ number w }
{
    w.number()
}

pub fn good_block_size(b: u64) -> bool
    ensures { result ≡ good_size b }
{
    units::good_block_size(b)
}

pub fn is_inside(len: usize, at: BytePlace, n: usize) -> bool
    ensures { result ≡ inside len at.0 n }
{
    units::is_inside(len, at, n)
}

pub fn block_place(lba: Lba, b: u64) -> Result<BytePlace, Refusal>
    ensures { means result ≡ place_of lba.0 b }
{
    lba.place(b)
}

pub fn place_after(at: BytePlace, n: usize) -> Result<BytePlace, Refusal>
    ensures { means result ≡ place_after at.0 n }
{
    at.after(n)
}

pub fn place_block(at: BytePlace, b: u64) -> Result<Lba, Refusal>
    ensures { means result ≡ block_of at.0 b }
{
    at.block(b)
}

pub fn array_place(slot: Slot, count: u32) -> Result<u32, Refusal>
    ensures { means result ≡ array_place_of slot.0 count }
{
    slot.array_place(count)
}

pub fn at_array_place(place: u32, count: u32) -> Result<Slot, Refusal>
    ensures { means result ≡ slot_of place count }
{
    Slot::at_array_place(place, count)
}

pub fn read_number(s: &[u8], at: BytePlace, width: Width) -> Result<u64, Refusal>
    ensures { means result ≡ number_read s.now at.0 (width_of width) }
{
    units::read_number(s, at, width)
}

pub fn nil() -> Guid
    ensures { result ≡ nil_guid }
{
    Guid::nil()
}

pub fn is_nil(g: Guid) -> bool
    ensures { result ≡ is_nil g }
{
    g.is_nil()
}

pub fn read_guid(s: &[u8], at: BytePlace) -> Result<Guid, Refusal>
    ensures { means result ≡ guid_read s.now at.0 }
{
    units::read_guid(s, at)
}

pub fn crc32(s: &[u8]) -> u32
    ensures { result ≡ crc s.now }
{
    crc32::crc32(s)
}

pub fn crc32_next(running: u32, s: &[u8]) -> u32
    ensures { result ≡ crc_from running s.now }
{
    crc32::crc32_next(running, s)
}

pub fn header_sum(h: &[u8; 92]) -> u32
    ensures { result ≡ header_sum h.now 0 }
{
    crc32::header_sum(h)
}

pub fn slot_sum<'a>(sum: u32, old: &'a [u8], new: &'a [u8], after: usize) -> Result<u32, Refusal>
    ensures { means result ≡ slot_sum sum old.now new.now after }
{
    slot_sum::slot_sum(sum, old, new, after)
}
