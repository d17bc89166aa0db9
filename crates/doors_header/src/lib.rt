// Doors: the public calls of header and builder once more, in one line each, under their own contracts word for word.
// Nobody calls them. They are there to be changed: each edit under must-fail puts an impostor behind a door, and the door's contract must refuse it.
#![tactic(auto)]

ghost use Rattle.std.specs.Prelude.{◌≡◌};
ghost use Rattle.units.specs.Meanings.{means};
ghost use Rattle.header.specs.Reading.{primary_read, backup_read, backup_block};
ghost use Rattle.header.specs.Writing.{parts_sum};
ghost use Rattle.builder.specs.Building.{new_builder, of_header, with_primary, with_disk_guid, with_backup_lba, with_first_usable, with_last_usable, with_num_parts, with_part_size, built};

use builder::HeaderBuilder;
use header::{Header, Revision};
use units::{Guid, Lba, Refusal};

pub fn read_primary_header(img: &[u8], b: u64) -> Result<Header, Refusal>
    ensures { means result ≡ primary_read img.now b }
{
    header::read_primary_header(img, b)
}

pub fn find_backup_lba(len: usize, b: u64) -> Result<Lba, Refusal>
    ensures { means result ≡ backup_block len b }
{
    header::find_backup_lba(len, b)
}

pub fn read_backup_header(img: &[u8], b: u64) -> Result<Header, Refusal>
    ensures { means result ≡ backup_read img.now b }
{
    header::read_backup_header(img, b)
}

pub fn partentry_checksum(h: Header, img: &[u8], b: u64) -> Result<u32, Refusal>
    ensures { means result ≡ parts_sum img.now h b }
{
    h.partentry_checksum(img, b)
}

pub fn new(disk_guid: Guid) -> HeaderBuilder
    ensures { result ≡ new_builder disk_guid }
{
    HeaderBuilder::new(disk_guid)
}

pub fn from_header(h: Header) -> HeaderBuilder
    ensures { result ≡ of_header h }
{
    HeaderBuilder::from_header(h)
}

pub fn with_primary(s: HeaderBuilder, primary: bool) -> HeaderBuilder
    ensures { result ≡ with_primary s primary }
{
    s.with_primary(primary)
}

pub fn with_disk_guid(s: HeaderBuilder, disk_guid: Guid) -> HeaderBuilder
    ensures { result ≡ with_disk_guid s disk_guid }
{
    s.with_disk_guid(disk_guid)
}

pub fn with_backup_lba(s: HeaderBuilder, backup_lba: Lba) -> HeaderBuilder
    ensures { result ≡ with_backup_lba s backup_lba }
{
    s.with_backup_lba(backup_lba)
}

pub fn with_first_usable(s: HeaderBuilder, first_usable: Lba) -> HeaderBuilder
    ensures { result ≡ with_first_usable s first_usable }
{
    s.with_first_usable(first_usable)
}

pub fn with_last_usable(s: HeaderBuilder, last_usable: Lba) -> HeaderBuilder
    ensures { result ≡ with_last_usable s last_usable }
{
    s.with_last_usable(last_usable)
}

pub fn with_num_parts(s: HeaderBuilder, num_parts: u32) -> HeaderBuilder
    ensures { result ≡ with_num_parts s num_parts }
{
    s.with_num_parts(num_parts)
}

pub fn with_part_size(s: HeaderBuilder, part_size: u32) -> HeaderBuilder
    ensures { result ≡ with_part_size s part_size }
{
    s.with_part_size(part_size)
}

pub fn build(s: HeaderBuilder, b: u64) -> Result<Header, Refusal>
    ensures { means result ≡ built s b }
{
    s.build(b)
}
