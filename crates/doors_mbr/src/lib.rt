// Doors: the public calls of mbr once more, in one line each, under their own contracts word for word.
// Nobody calls them. They are there to be changed: each edit under must-fail puts an impostor behind a door, and the door's contract must refuse it.
#![tactic(auto)]

ghost use Rattle.units.specs.Meanings.{means};
ghost use Rattle.std.specs.Prelude.{◌≡◌};
ghost use Rattle.mbr.specs.Format.{record_bytes, mbr_bytes, protective, zero_record, fresh};
ghost use Rattle.mbr.specs.Parsing.{record_parsed, mbr_parsed, image_parsed, bytes_read};
ghost use Rattle.mbr.specs.Changing.{with_bootcode, with_signature, record_taken, record_set};

use mbr::{Changed, PartRecord, ProtectiveMbr};
use units::Refusal;

pub fn new_protective(lb_size: u32) -> PartRecord
    ensures { result ≡ protective lb_size }
{
    PartRecord::new_protective(lb_size)
}

pub fn zero() -> PartRecord
    ensures { result ≡ zero_record }
{
    PartRecord::zero()
}

pub fn record_from_bytes(buf: &[u8]) -> Result<PartRecord, Refusal>
    ensures { means result ≡ record_parsed buf.now }
{
    PartRecord::from_bytes(buf)
}

pub fn record_to_bytes(p: PartRecord) -> [u8; 16]
    ensures { result ≡ record_bytes p }
{
    p.to_bytes()
}

pub fn new() -> ProtectiveMbr
    ensures { result ≡ fresh 0xFFFFFFFF }
{
    ProtectiveMbr::new()
}

pub fn with_lb_size(lb_size: u32) -> ProtectiveMbr
    ensures { result ≡ fresh lb_size }
{
    ProtectiveMbr::with_lb_size(lb_size)
}

pub fn from_bytes(buf: &[u8], b: u64) -> Result<ProtectiveMbr, Refusal>
    ensures { means result ≡ mbr_parsed buf.now b }
{
    ProtectiveMbr::from_bytes(buf, b)
}

pub fn from_image(img: &[u8], b: u64) -> Result<ProtectiveMbr, Refusal>
    ensures { means result ≡ image_parsed img.now b }
{
    ProtectiveMbr::from_image(img, b)
}

pub fn to_bytes(m: ProtectiveMbr) -> [u8; 512]
    ensures { result ≡ mbr_bytes m }
{
    m.to_bytes()
}

pub fn bootcode(m: ProtectiveMbr) -> [u8; 440]
    ensures { result ≡ m.bootcode }
{
    m.bootcode()
}

pub fn set_bootcode(m: ProtectiveMbr, bootcode: [u8; 440]) -> ProtectiveMbr
    ensures { result ≡ with_bootcode m bootcode }
{
    m.set_bootcode(bootcode)
}

pub fn disk_signature(m: ProtectiveMbr) -> [u8; 4]
    ensures { result ≡ m.disk_signature }
{
    m.disk_signature()
}

pub fn set_disk_signature(m: ProtectiveMbr, disk_signature: [u8; 4]) -> ProtectiveMbr
    ensures { result ≡ with_signature m disk_signature }
{
    m.set_disk_signature(disk_signature)
}

pub fn partition(m: ProtectiveMbr, place: usize) -> Result<PartRecord, Refusal>
    ensures { means result ≡ record_taken m place }
{
    m.partition(place)
}

pub fn set_partition(
    m: ProtectiveMbr,
    place: usize,
    partition: PartRecord,
) -> Result<Changed, Refusal>
    ensures { means result ≡ record_set m place partition }
{
    m.set_partition(place, partition)
}

pub fn read_bootcode(img: &[u8]) -> Result<[u8; 440], Refusal>
    ensures { means result ≡ bytes_read img.now 0 440 }
{
    mbr::read_bootcode(img)
}

pub fn read_disk_signature(img: &[u8]) -> Result<[u8; 4], Refusal>
    ensures { means result ≡ bytes_read img.now 440 4 }
{
    mbr::read_disk_signature(img)
}
