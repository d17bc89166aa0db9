// A partition entry by value, its flags by name: read from its 128 bytes, written into a lent buffer or into an image, and asked for in a header's array.
// Here stand the public calls: each takes every image and every number. `inner` has the leaves for our own crates.
#![tactic(auto)]

pub mod inner;

ghost use Rattle.std.specs.Prelude.{◌≡◌, not};
ghost use Rattle.units.specs.Answer.{Ends};
ghost use Rattle.units.specs.Guids.{is_nil};
ghost use Rattle.units.specs.Places.{place_of};
ghost use Rattle.units.specs.Meanings.{means};
ghost use Rattle.partition.specs.Flags.{flags_of, bits_of};
ghost use Rattle.partition.specs.Format.{entry_at, zero_partition};
ghost use Rattle.partition.specs.Lengths.{sectors_len, bytes_len};
ghost use Rattle.partition.specs.Device.{entry_written, entry_stored, zeros_stored};
ghost use Rattle.partition.specs.Array.{partition_read, partition_count, partition_after};
ghost use Rattle.partition.specs.Meanings.{read_means, next_means};

use header::Header;
use units::{BytePlace, Guid, Lba, Refusal, Slot};

// An entry's attributes (UEFI 2.10, 5.3.3, table 5.8): bits 3 to 47 as a number, bits 48 to 63 for the owner of the type, bits 0, 1 and 2.
#[repr(C)]
#[derive(Clone, Copy, Debug, PartialEq, Eq)]
pub struct Flags {
    pub reserved: u64,
    pub owner: u16,
    pub required: bool,
    pub no_block_io: bool,
    pub legacy_bootable: bool,
}

// An entry's record (UEFI 2.10, 5.3.3). The name is 36 raw 16-bit units.
#[repr(C)]
#[derive(Clone, Copy, Debug, PartialEq, Eq)]
pub struct Partition {
    pub part_type_guid: Guid,
    pub part_guid: Guid,
    pub first_lba: Lba,
    pub last_lba: Lba,
    pub flags: Flags,
    pub name: [u16; 36],
}

impl Flags {
    // The flags in 64 bits, whatever they are.
    pub fn of_bits(bits: u64) -> Flags
        ensures { result ≡ flags_of bits }
    {
        Flags {
            reserved: bits / 8 % 0x2000_0000_0000,
            owner: (bits / 0x1_0000_0000_0000) as u16,
            required: bits % 2 == 1,
            no_block_io: bits / 2 % 2 == 1,
            legacy_bootable: bits / 4 % 2 == 1,
        }
    }

    // The 64 bits: 28 if the reserved part needs more than 45.
    pub fn bits(self) -> Result<u64, Refusal>
        ensures { means result ≡ bits_of self }
    {
        if inner::too_wide(self) {
            return Err(Refusal::ReservedFlag);
        }
        Ok(inner::joined(self))
    }
}

impl Partition {
    // The unused entry, whose bytes are all zero.
    pub fn zero() -> Partition
        ensures { result ≡ zero_partition }
    {
        Partition {
            part_type_guid: Guid::nil(),
            part_guid: Guid::nil(),
            first_lba: Lba(0),
            last_lba: Lba(0),
            flags: Flags::of_bits(0),
            name: [0; 36],
        }
    }

    // The record in 128 bytes; its name's units after the first zero are cleared.
    pub fn from_bytes(bytes: &[u8; 128]) -> Partition
        ensures { result ≡ entry_at bytes.now 0 }
    {
        inner::entry_at(bytes, 0)
    }

    // The record's 128 bytes, cut or filled with zeros to the buffer's length: 28 whatever that is.
    pub fn write_bytes(self, out: &mut [u8]) -> Result<(), Refusal>
        ensures { Ends (entry_written out.old self) (means result) out.new }
    {
        let flags = self.flags;
        if inner::too_wide(flags) {
            return Err(Refusal::ReservedFlag);
        }
        inner::put_fitted(out, self);
        Ok(())
    }

    // Whether the type is not all zero.
    pub fn is_used(self) -> bool
        ensures { result ≡ not (is_nil self.part_type_guid) }
    {
        !self.part_type_guid.is_nil()
    }

    // How many blocks: 20, 3.
    pub fn sectors_len(self) -> Result<u64, Refusal>
        ensures { means result ≡ sectors_len self.first_lba.0 self.last_lba.0 }
    {
        let first = self.first_lba.0;
        let last = self.last_lba.0;
        if last < first {
            return Err(Refusal::BadRange);
        }
        if last - first == 0xFFFF_FFFF_FFFF_FFFF {
            return Err(Refusal::Overflow);
        }
        Ok(last - first + 1)
    }

    // How many bytes, in blocks of b: 1, 20, 3, 3.
    pub fn bytes_len(self, b: u64) -> Result<u64, Refusal>
        ensures { means result ≡ bytes_len self.first_lba.0 self.last_lba.0 b }
    {
        if !units::good_block_size(b) {
            return Err(Refusal::BadBlockSize);
        }
        let n = self.sectors_len()?;
        if 0xFFFF_FFFF_FFFF_FFFF / b < n {
            return Err(Refusal::Overflow);
        }
        Ok(n * b)
    }

    // Where the first byte stands, in blocks of b: 1, 3.
    pub fn bytes_start(self, b: u64) -> Result<BytePlace, Refusal>
        ensures { means result ≡ place_of self.first_lba.0 b }
    {
        self.first_lba.place(b)
    }

    // Stores the record as entry `index` of an array of entries of entry_size bytes that starts at a block: 1, 7, 28, 3, 2.
    pub fn write_to_device(
        self,
        img: &mut [u8],
        index: u64,
        start: Lba,
        b: u64,
        entry_size: u32,
    ) -> Result<usize, Refusal>
        ensures { Ends (entry_stored img.old self index start.0 b entry_size) (means result) img.new }
    {
        let size = entry_size as usize;
        let at = inner::entry_device(self.flags, start, index, b, entry_size)?;
        if !units::is_inside(img.len(), at, size) {
            return Err(Refusal::Short);
        }
        let a = at.0;
        inner::put_fitted(&mut img[a..a + size], self);
        Ok(size)
    }

    // Stores zeros over `count` entries from entry `index` on: 1, 7, 3, 2. Zeroing none is accepted at any place below 2^64.
    pub fn write_zero_entries_to_device(
        img: &mut [u8],
        index: u64,
        count: u64,
        start: Lba,
        b: u64,
        entry_size: u32,
    ) -> Result<usize, Refusal>
        ensures { Ends (zeros_stored img.old index count start.0 b entry_size) (means result) img.new }
    {
        let at = inner::device_place(start, index, b, entry_size, count)?;
        let n = (count * entry_size as u64) as usize;
        if n == 0 {
            return Ok(0);
        }
        if !units::is_inside(img.len(), at, n) {
            return Err(Refusal::Short);
        }
        let a = at.0;
        units::inner::put_zeros(img, a, n);
        Ok(n)
    }
}

// The entry in a slot of the array that a header names, if it is present: 1, 3, 7, 2, 6, 18.
pub fn read_partition(
    img: &[u8],
    h: Header,
    b: u64,
    slot: Slot,
) -> Result<Option<Partition>, Refusal>
    ensures { read_means result ≡ partition_read img.now h b slot.0 }
{
    let at = inner::partition_place(img, h, b, slot)?;
    Ok(inner::entry_if_present(img, at.0))
}

// How many entries of the array that a header names are present: 1, 3, 7, 2, 6.
pub fn count_partitions(img: &[u8], h: Header, b: u64) -> Result<u32, Refusal>
    ensures { means result ≡ partition_count img.now h b }
{
    let at = inner::find_array(img, h, b)?;
    Ok(inner::count_present(img, at.0, h.num_parts))
}

// The first present slot after a slot, where slot 0 stands before the first: 1, 3, 7, 2, 6.
pub fn next_partition(img: &[u8], h: Header, b: u64, after: Slot) -> Result<Option<Slot>, Refusal>
    ensures { next_means result ≡ partition_after img.now h b after.0 }
{
    let at = inner::find_array(img, h, b)?;
    Ok(inner::next_present(img, at.0, h.num_parts, after))
}
