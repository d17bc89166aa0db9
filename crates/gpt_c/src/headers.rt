// The ported calls on headers for C, and the check sum.
ghost use Rattle.std.specs.Prelude.{◌≡◌};
ghost use Rattle.units.specs.Answer.{Ends};
ghost use Rattle.units.specs.Meanings.{means};
ghost use Rattle.crc32.specs.Crc.{crc_from, crc};
ghost use Rattle.header.specs.Reading.{primary_read, backup_read, backup_block};
ghost use Rattle.header.specs.Writing.{parts_sum, primary_written, backup_written};
ghost use Rattle.slot_sum.specs.SlotSum.{slot_sum};
ghost use Rattle.answers_c.specs.Crossing.{outcome_to_c};
ghost use Rattle.gpt_c.specs.Exports.{zero_header, header_to_c, written_to_c, sum_to_c, block_to_c};

use header::{Header, Revision, Written};
use units::{Guid, Lba, Refusal};

#[repr(C)]
#[derive(Clone, Copy, Debug, PartialEq, Eq)]
pub struct GptHeaderRead {
    pub number: u32,
    pub header: Header,
}

// The bytes stored, and the header with its new sums.
#[repr(C)]
#[derive(Clone, Copy, Debug, PartialEq, Eq)]
pub struct GptHeaderWritten {
    pub number: u32,
    pub bytes: u64,
    pub header: Header,
}

#[repr(C)]
#[derive(Clone, Copy, Debug, PartialEq, Eq)]
pub struct GptSum {
    pub number: u32,
    pub sum: u32,
}

#[repr(C)]
#[derive(Clone, Copy, Debug, PartialEq, Eq)]
pub struct GptBlock {
    pub number: u32,
    pub lba: Lba,
}

// What stands beside a refusal.
fn zero_header() -> Header
    ensures { result ≡ zero_header }
{
    Header {
        revision: Revision(0, 0),
        header_size_le: 0,
        crc32: 0,
        reserved: 0,
        current_lba: Lba(0),
        backup_lba: Lba(0),
        first_usable: Lba(0),
        last_usable: Lba(0),
        disk_guid: Guid::nil(),
        part_start: Lba(0),
        num_parts: 0,
        part_size: 0,
        crc32_parts: 0,
    }
}

impl From<Result<Header, Refusal>> for GptHeaderRead {
    ghost from_gives = { λ r a. a ≡ header_to_c (means r) };

    #[tactic(auto, unfolding(answers_c::specs::Crossing::crossed))]
    fn from(r: Result<Header, Refusal>) -> GptHeaderRead {
        match r {
            Ok(header) => GptHeaderRead { number: 0, header },
            Err(w) => GptHeaderRead {
                number: w.number(),
                header: zero_header(),
            },
        }
    }
}

impl From<Result<Written, Refusal>> for GptHeaderWritten {
    ghost from_gives = { λ r a. a ≡ written_to_c (means r) };

    #[tactic(auto, unfolding(answers_c::specs::Crossing::crossed))]
    fn from(r: Result<Written, Refusal>) -> GptHeaderWritten {
        match r {
            Ok(w) => GptHeaderWritten {
                number: 0,
                bytes: w.count as u64,
                header: w.header,
            },
            Err(w) => GptHeaderWritten {
                number: w.number(),
                bytes: 0,
                header: zero_header(),
            },
        }
    }
}

impl From<Result<u32, Refusal>> for GptSum {
    ghost from_gives = { λ r a. a ≡ sum_to_c (means r) };

    #[tactic(auto, unfolding(answers_c::specs::Crossing::crossed))]
    fn from(r: Result<u32, Refusal>) -> GptSum {
        match r {
            Ok(sum) => GptSum { number: 0, sum },
            Err(w) => GptSum {
                number: w.number(),
                sum: 0,
            },
        }
    }
}

impl From<Result<Lba, Refusal>> for GptBlock {
    ghost from_gives = { λ r a. a ≡ block_to_c (means r) };

    #[tactic(auto, unfolding(answers_c::specs::Crossing::crossed))]
    fn from(r: Result<Lba, Refusal>) -> GptBlock {
        match r {
            Ok(lba) => GptBlock { number: 0, lba },
            Err(w) => GptBlock {
                number: w.number(),
                lba: Lba(0),
            },
        }
    }
}

// The check sum of bytes.
#[unsafe(no_mangle)]
pub extern "C" fn gpt_crc32(bytes: &[u8]) -> u32
    ensures { result ≡ crc bytes.now }
{
    crc32::crc32(bytes)
}

// The check sum that goes on over bytes, from that of the bytes before them; 0 is a fresh start.
#[unsafe(no_mangle)]
pub extern "C" fn gpt_crc32_next(running: u32, bytes: &[u8]) -> u32
    ensures { result ≡ crc_from running bytes.now }
{
    crc32::crc32_next(running, bytes)
}

// The primary header: 1, 2, 4, 5.
#[unsafe(no_mangle)]
pub extern "C" fn gpt_read_primary_header(img: &[u8], b: u64) -> GptHeaderRead
    ensures { result ≡ header_to_c (primary_read img.now b) }
{
    header::read_primary_header(img, b).into()
}

// The backup header: 1, 8, 4, 5.
#[unsafe(no_mangle)]
pub extern "C" fn gpt_read_backup_header(img: &[u8], b: u64) -> GptHeaderRead
    ensures { result ≡ header_to_c (backup_read img.now b) }
{
    header::read_backup_header(img, b).into()
}

// The block of the backup header, in an image of len bytes: 1, 8.
#[unsafe(no_mangle)]
pub extern "C" fn gpt_find_backup_lba(len: usize, b: u64) -> GptBlock
    ensures { result ≡ block_to_c (backup_block len b) }
{
    header::find_backup_lba(len, b).into()
}

// The check sum of the array that a header names: 1, 3, 2.
#[unsafe(no_mangle)]
pub extern "C" fn gpt_partentry_checksum(img: &[u8], h: Header, b: u64) -> GptSum
    ensures { result ≡ sum_to_c (parts_sum img.now h b) }
{
    h.partentry_checksum(img, b).into()
}

// The sum of an entry array after one slot, from the sum before it: 2, 3.
#[unsafe(no_mangle)]
pub extern "C" fn gpt_slot_sum(sum: u32, old: &[u8], new: &[u8], after: usize) -> GptSum
    ensures { result ≡ sum_to_c (slot_sum sum old.now new.now after) }
{
    slot_sum::slot_sum(sum, old, new, after).into()
}

// Stores a primary header in its own block, with new sums: 1, 11, 3, 2, 3, 2.
#[unsafe(no_mangle)]
pub extern "C" fn gpt_write_primary(img: &mut [u8], h: Header, b: u64) -> GptHeaderWritten
    ensures { Ends (outcome_to_c written_to_c (primary_written img.old h b)) result img.new }
{
    h.write_primary(img, b).into()
}

// Stores a backup header in its own block, with new sums: 1, 11, 3, 2, 3, 2.
#[unsafe(no_mangle)]
pub extern "C" fn gpt_write_backup(img: &mut [u8], h: Header, b: u64) -> GptHeaderWritten
    ensures { Ends (outcome_to_c written_to_c (backup_written img.old h b)) result img.new }
{
    h.write_backup(img, b).into()
}
