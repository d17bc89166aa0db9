// The GPT header: read from an image, and written to it as one whole block with new check sums. Crate `builder` makes new ones.
// Here stand the public calls: each takes every image and every number. `inner` has the leaves for our own crates.
#![tactic(auto)]

pub mod inner;

ghost use Rattle.std.specs.Prelude.{◌≡◌};
ghost use Rattle.units.specs.Answer.{Ends};
ghost use Rattle.units.specs.Meanings.{means};
ghost use Rattle.header.specs.Reading.{primary_read, backup_read, backup_block};
ghost use Rattle.header.specs.Writing.{parts_sum, primary_written, backup_written};

use units::{BytePlace, Guid, Lba, Refusal};

// Major and minor revision.
#[repr(C)]
#[derive(Clone, Copy, Debug, PartialEq, Eq)]
pub struct Revision(pub u16, pub u16);

// A header by its fields (UEFI 2.10, 5.3.2). The signature is no field: it is compared on reading and stored on writing.
#[repr(C)]
#[derive(Clone, Copy, Debug, PartialEq, Eq)]
pub struct Header {
    pub revision: Revision,
    pub header_size_le: u32,
    pub crc32: u32,
    pub reserved: u32,
    pub current_lba: Lba,
    pub backup_lba: Lba,
    pub first_usable: Lba,
    pub last_usable: Lba,
    pub disk_guid: Guid,
    pub part_start: Lba,
    pub num_parts: u32,
    pub part_size: u32,
    pub crc32_parts: u32,
}

// What an accepted write gives: how many bytes it stored, and the header with its new sums.
#[derive(Clone, Copy, Debug, PartialEq, Eq)]
pub struct Written {
    pub count: usize,
    pub header: Header,
}

// The primary header, at byte b: 1, 2, 4, 5.
pub fn read_primary_header(img: &[u8], b: u64) -> Result<Header, Refusal>
    ensures { means result ≡ primary_read img.now b }
{
    if !units::good_block_size(b) {
        return Err(Refusal::BadBlockSize);
    }
    inner::read_header(img, BytePlace(b as usize))
}

// The block of the backup header, in an image of len bytes: 1, 8.
pub fn find_backup_lba(len: usize, b: u64) -> Result<Lba, Refusal>
    ensures { means result ≡ backup_block len b }
{
    if !units::good_block_size(b) {
        return Err(Refusal::BadBlockSize);
    }
    let size = b as usize;
    if len < 3 * size {
        return Err(Refusal::ToSmallForBackup);
    }
    BytePlace(len - size).block(b)
}

// The backup header, in the last whole block: 1, 8, 4, 5.
pub fn read_backup_header(img: &[u8], b: u64) -> Result<Header, Refusal>
    ensures { means result ≡ backup_read img.now b }
{
    let at = find_backup_lba(img.len(), b)?.place(b)?;
    inner::read_header(img, at)
}

impl Header {
    // The check sum of the array that the header names: 1, 3, 2.
    pub fn partentry_checksum(self, img: &[u8], b: u64) -> Result<u32, Refusal>
        ensures { means result ≡ parts_sum img.now self b }
    {
        inner::parts_sum(img, self, b)
    }

    // Stores a primary header in its own block, with new sums: 1, 11 unless its block comes before the backup's, 3, 2, 3, 2.
    pub fn write_primary(self, img: &mut [u8], b: u64) -> Result<Written, Refusal>
        ensures { Ends (primary_written img.old self b) (means result) img.new }
    {
        let wrong = self.backup_lba.0 <= self.current_lba.0;
        inner::write_header(img, self, b, wrong)
    }

    // Stores a backup header in its own block, with new sums: 1, 11 unless its block comes after the primary's, 3, 2, 3, 2.
    pub fn write_backup(self, img: &mut [u8], b: u64) -> Result<Written, Refusal>
        ensures { Ends (backup_written img.old self b) (means result) img.new }
    {
        let wrong = self.current_lba.0 <= self.backup_lba.0;
        inner::write_header(img, self, b, wrong)
    }
}
