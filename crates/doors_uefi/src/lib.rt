// Doors: the public calls of uefi that answer by value once more, in one line each, under their own contracts word for word.
// Nobody calls them. They are there to be changed: each edit under must-fail puts an impostor behind a door, and the door's contract must refuse it.
#![tactic(auto)]

ghost use Rattle.units.specs.Meanings.{means};
ghost use Rattle.std.specs.Prelude.{◌≡◌};
ghost use Rattle.partition.specs.Meanings.{next_means, read_means};
ghost use Rattle.uefi.specs.Reading.{primary_by_uefi, backup_by_uefi};
ghost use Rattle.uefi.specs.Array.{counted, entries_by_uefi, after_by_uefi, entry_by_uefi, primary_entries, backup_entries};

use header::{Header, Revision};
use partition::Partition;
use units::{Guid, Lba, Refusal, Slot};

pub fn read_primary_header(img: &[u8], b: u64) -> Result<Header, Refusal>
    ensures { means result ≡ primary_by_uefi img.now b }
{
    uefi::read_primary_header(img, b)
}

pub fn read_backup_header(img: &[u8], b: u64) -> Result<Header, Refusal>
    ensures { means result ≡ backup_by_uefi img.now b }
{
    uefi::read_backup_header(img, b)
}

pub fn count_partitions(img: &[u8], h: Header, b: u64) -> Result<u32, Refusal>
    ensures { means result ≡ counted (entries_by_uefi img.now h b) }
{
    uefi::count_partitions(img, h, b)
}

pub fn next_partition(img: &[u8], h: Header, b: u64, after: Slot) -> Result<Option<Slot>, Refusal>
    ensures { next_means result ≡ after_by_uefi img.now h b after.0 }
{
    uefi::next_partition(img, h, b, after)
}

pub fn read_partition(
    img: &[u8],
    h: Header,
    b: u64,
    slot: Slot,
) -> Result<Option<Partition>, Refusal>
    ensures { read_means result ≡ entry_by_uefi img.now h b slot.0 }
{
    uefi::read_partition(img, h, b, slot)
}

pub fn count_primary(img: &[u8], b: u64) -> Result<u32, Refusal>
    ensures { means result ≡ counted (primary_entries img.now b) }
{
    uefi::count_primary(img, b)
}

pub fn count_backup(img: &[u8], b: u64) -> Result<u32, Refusal>
    ensures { means result ≡ counted (backup_entries img.now b) }
{
    uefi::count_backup(img, b)
}
