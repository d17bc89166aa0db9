// Doors: the public calls that store in lent bytes, of units, header, mbr and partition, once more, in one line each, under their own contracts word for word.
// Nobody calls them. They are there to be changed: each edit under must-fail puts an impostor behind a door, and the door's contract must refuse it.
#![tactic(auto)]

ghost use Rattle.units.specs.Answer.{Ends};
ghost use Rattle.units.specs.Numbers.{bytes_in, value_in, number_stored};
ghost use Rattle.units.specs.Guids.{guid_stored};
ghost use Rattle.units.specs.Meanings.{means};
ghost use Rattle.header.specs.Writing.{primary_written, backup_written};
ghost use Rattle.mbr.specs.Storing.{whole_stored, tail_stored, bytes_stored};
ghost use Rattle.partition.specs.Device.{entry_written, entry_stored, zeros_stored};

use header::{Header, Written};
use mbr::ProtectiveMbr;
use partition::Partition;
use units::{BytePlace, Guid, Lba, Number, Refusal};

pub fn store_number(s: &mut [u8], at: BytePlace, x: Number) -> Result<usize, Refusal>
    ensures { Ends (number_stored s.old at.0 (bytes_in x) (value_in x)) (means result) s.new }
{
    units::store_number(s, at, x)
}

pub fn store_guid(s: &mut [u8], at: BytePlace, g: Guid) -> Result<usize, Refusal>
    ensures { Ends (guid_stored s.old at.0 g) (means result) s.new }
{
    units::store_guid(s, at, g)
}

pub fn write_primary(h: Header, img: &mut [u8], b: u64) -> Result<Written, Refusal>
    ensures { Ends (primary_written img.old h b) (means result) img.new }
{
    h.write_primary(img, b)
}

pub fn write_backup(h: Header, img: &mut [u8], b: u64) -> Result<Written, Refusal>
    ensures { Ends (backup_written img.old h b) (means result) img.new }
{
    h.write_backup(img, b)
}

pub fn overwrite_lba0(m: ProtectiveMbr, img: &mut [u8]) -> Result<usize, Refusal>
    ensures { Ends (whole_stored img.old m) (means result) img.new }
{
    m.overwrite_lba0(img)
}

pub fn update_conservative(m: ProtectiveMbr, img: &mut [u8]) -> Result<usize, Refusal>
    ensures { Ends (tail_stored img.old m) (means result) img.new }
{
    m.update_conservative(img)
}

pub fn write_bootcode(img: &mut [u8], bootcode: &[u8; 440]) -> Result<usize, Refusal>
    ensures { Ends (bytes_stored img.old 0 bootcode.now) (means result) img.new }
{
    mbr::write_bootcode(img, bootcode)
}

pub fn write_disk_signature(img: &mut [u8], disk_signature: &[u8; 4]) -> Result<usize, Refusal>
    ensures { Ends (bytes_stored img.old 440 disk_signature.now) (means result) img.new }
{
    mbr::write_disk_signature(img, disk_signature)
}

pub fn write_bytes(p: Partition, out: &mut [u8]) -> Result<(), Refusal>
    ensures { Ends (entry_written out.old p) (means result) out.new }
{
    p.write_bytes(out)
}

pub fn write_to_device(
    p: Partition,
    img: &mut [u8],
    index: u64,
    start: Lba,
    b: u64,
    entry_size: u32,
) -> Result<usize, Refusal>
    ensures { Ends (entry_stored img.old p index start.0 b entry_size) (means result) img.new }
{
    p.write_to_device(img, index, start, b, entry_size)
}

pub fn write_zero_entries_to_device(
    img: &mut [u8],
    index: u64,
    count: u64,
    start: Lba,
    b: u64,
    entry_size: u32,
) -> Result<usize, Refusal>
    ensures { Ends (zeros_stored img.old index count start.0 b entry_size) (means result) img.new }
{
    Partition::write_zero_entries_to_device(img, index, count, start, b, entry_size)
}
