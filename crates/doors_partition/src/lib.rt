// Doors: the public calls of partition once more, in one line each, under their own contracts word for word.
// Nobody calls them. They are there to be changed: each edit under must-fail puts an impostor behind a door, and the door's contract must refuse it.
#![tactic(auto)]

ghost use Rattle.std.specs.Prelude.{◌≡◌, not};
ghost use Rattle.units.specs.Guids.{is_nil};
ghost use Rattle.units.specs.Places.{place_of};
ghost use Rattle.units.specs.Meanings.{means};
ghost use Rattle.partition.specs.Flags.{flags_of, bits_of};
ghost use Rattle.partition.specs.Format.{entry_at, zero_partition};
ghost use Rattle.partition.specs.Lengths.{sectors_len, bytes_len};
ghost use Rattle.partition.specs.Array.{partition_read, partition_count, partition_after};
ghost use Rattle.partition.specs.Meanings.{read_means, next_means};

use header::Header;
use partition::{Flags, Partition};
use units::{BytePlace, Lba, Refusal, Slot};

pub fn of_bits(bits: u64) -> Flags
    ensures { result ≡ flags_of bits }
{
    Flags::of_bits(bits)
}

pub fn bits(f: Flags) -> Result<u64, Refusal>
    ensures { means result ≡ bits_of f }
{
    f.bits()
}

pub fn zero() -> Partition
    ensures { result ≡ zero_partition }
{
    Partition::zero()
}

pub fn from_bytes(bytes: &[u8; 128]) -> Partition
    ensures { result ≡ entry_at bytes.now 0 }
{
    Partition::from_bytes(bytes)
}

pub fn is_used(p: Partition) -> bool
    ensures { result ≡ not (is_nil p.part_type_guid) }
{
    p.is_used()
}

pub fn sectors_len(p: Partition) -> Result<u64, Refusal>
    ensures { means result ≡ sectors_len p.first_lba.0 p.last_lba.0 }
{
    p.sectors_len()
}

pub fn bytes_len(p: Partition, b: u64) -> Result<u64, Refusal>
    ensures { means result ≡ bytes_len p.first_lba.0 p.last_lba.0 b }
{
    p.bytes_len(b)
}

pub fn bytes_start(p: Partition, b: u64) -> Result<BytePlace, Refusal>
    ensures { means result ≡ place_of p.first_lba.0 b }
{
    p.bytes_start(b)
}

pub fn read_partition(
    img: &[u8],
    h: Header,
    b: u64,
    slot: Slot,
) -> Result<Option<Partition>, Refusal>
    ensures { read_means result ≡ partition_read img.now h b slot.0 }
{
    partition::read_partition(img, h, b, slot)
}

pub fn count_partitions(img: &[u8], h: Header, b: u64) -> Result<u32, Refusal>
    ensures { means result ≡ partition_count img.now h b }
{
    partition::count_partitions(img, h, b)
}

pub fn next_partition(img: &[u8], h: Header, b: u64, after: Slot) -> Result<Option<Slot>, Refusal>
    ensures { next_means result ≡ partition_after img.now h b after.0 }
{
    partition::next_partition(img, h, b, after)
}
