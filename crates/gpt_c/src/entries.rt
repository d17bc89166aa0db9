// The ported calls on partition entries for C.
ghost use Rattle.std.specs.Prelude.{◌≡◌, not, ◌/◌, length};
ghost use Rattle.units.specs.Answer.{number_of, Ends};
ghost use Rattle.units.specs.Guids.{is_nil};
ghost use Rattle.units.specs.Places.{place_of};
ghost use Rattle.units.specs.Meanings.{means};
ghost use Rattle.partition.specs.Flags.{flags_of, bits_of};
ghost use Rattle.partition.specs.Lengths.{sectors_len, bytes_len};
ghost use Rattle.partition.specs.Device.{entry_written, entry_stored, zeros_stored};
ghost use Rattle.partition.specs.Array.{partition_read, partition_count, partition_after};
ghost use Rattle.rows.specs.Row.{partitions_read};
ghost use Rattle.rows.specs.RowBytes.{bytes_outcome};
ghost use Rattle.answers_c.specs.Crossing.{outcome_to_c, count_to_c, next_to_c, held_to_c};
ghost use Rattle.gpt_c.specs.Exports.{stored_to_c, bits_to_c, length_to_c, place_to_c, entry_to_c, entry_parsed};

use crate::stored::GptStored;
use answers_c::{GptCount, GptNext, GptSlotRead};
use header::Header;
use partition::{Flags, Partition};
use units::{BytePlace, Lba, Refusal, Slot};

// The 64 bits of flags.
#[repr(C)]
#[derive(Clone, Copy, Debug, PartialEq, Eq)]
pub struct GptFlagBits {
    pub number: u32,
    pub bits: u64,
}

// How many blocks or bytes.
#[repr(C)]
#[derive(Clone, Copy, Debug, PartialEq, Eq)]
pub struct GptLength {
    pub number: u32,
    pub length: u64,
}

// A byte place in the image.
#[repr(C)]
#[derive(Clone, Copy, Debug, PartialEq, Eq)]
pub struct GptPlace {
    pub number: u32,
    pub place: u64,
}

#[repr(C)]
#[derive(Clone, Copy, Debug, PartialEq, Eq)]
pub struct GptEntryRead {
    pub number: u32,
    pub partition: Partition,
}

impl From<Result<u64, Refusal>> for GptFlagBits {
    ghost from_gives = { λ r a. a ≡ bits_to_c (means r) };

    #[tactic(auto, unfolding(answers_c::specs::Crossing::crossed))]
    fn from(r: Result<u64, Refusal>) -> GptFlagBits {
        match r {
            Ok(n) => GptFlagBits { number: 0, bits: n },
            Err(w) => GptFlagBits {
                number: w.number(),
                bits: 0,
            },
        }
    }
}

impl From<Result<u64, Refusal>> for GptLength {
    ghost from_gives = { λ r a. a ≡ length_to_c (means r) };

    #[tactic(auto, unfolding(answers_c::specs::Crossing::crossed))]
    fn from(r: Result<u64, Refusal>) -> GptLength {
        match r {
            Ok(n) => GptLength {
                number: 0,
                length: n,
            },
            Err(w) => GptLength {
                number: w.number(),
                length: 0,
            },
        }
    }
}

impl From<Result<BytePlace, Refusal>> for GptPlace {
    ghost from_gives = { λ r a. a ≡ place_to_c (means r) };

    #[tactic(auto, unfolding(answers_c::specs::Crossing::crossed))]
    fn from(r: Result<BytePlace, Refusal>) -> GptPlace {
        match r {
            Ok(at) => GptPlace {
                number: 0,
                place: at.0 as u64,
            },
            Err(w) => GptPlace {
                number: w.number(),
                place: 0,
            },
        }
    }
}

impl From<Result<Partition, Refusal>> for GptEntryRead {
    ghost from_gives = { λ r a. a ≡ entry_to_c (means r) };

    #[tactic(auto, unfolding(answers_c::specs::Crossing::crossed))]
    fn from(r: Result<Partition, Refusal>) -> GptEntryRead {
        match r {
            Ok(partition) => GptEntryRead {
                number: 0,
                partition,
            },
            Err(w) => GptEntryRead {
                number: w.number(),
                partition: Partition::zero(),
            },
        }
    }
}

// The record in the first 128 of some bytes: 2.
fn entry_parsed(bytes: &[u8]) -> Result<Partition, Refusal>
    ensures { means result ≡ entry_parsed bytes.now }
{
    if bytes.len() < 128 {
        return Err(Refusal::Short);
    }
    Ok(partition::inner::entry_at(bytes, 0))
}

// The flags in 64 bits.
#[unsafe(no_mangle)]
pub extern "C" fn gpt_flags_of(bits: u64) -> Flags
    ensures { result ≡ flags_of bits }
{
    Flags::of_bits(bits)
}

// The 64 bits of flags: 28.
#[unsafe(no_mangle)]
pub extern "C" fn gpt_flags_bits(f: Flags) -> GptFlagBits
    ensures { result ≡ bits_to_c (bits_of f) }
{
    f.bits().into()
}

// The record in the first 128 of some bytes, its name's units after the first zero cleared: 2.
#[unsafe(no_mangle)]
pub extern "C" fn gpt_entry_from_bytes(bytes: &[u8]) -> GptEntryRead
    ensures { result ≡ entry_to_c (entry_parsed bytes.now) }
{
    entry_parsed(bytes).into()
}

// The record's 128 bytes, cut or filled with zeros to the length of out: 28 whatever that is.
#[unsafe(no_mangle)]
pub extern "C" fn gpt_entry_to_bytes(out: &mut [u8], p: Partition) -> u32
    ensures { Ends (outcome_to_c number_of (entry_written out.old p)) result out.new }
{
    answers_c::number_of(p.write_bytes(out))
}

// Whether the type is not all zero.
#[unsafe(no_mangle)]
pub extern "C" fn gpt_is_used(p: Partition) -> bool
    ensures { result ≡ not (is_nil p.part_type_guid) }
{
    p.is_used()
}

// How many blocks: 20, 3.
#[unsafe(no_mangle)]
pub extern "C" fn gpt_sectors_len(p: Partition) -> GptLength
    ensures { result ≡ length_to_c (sectors_len p.first_lba.0 p.last_lba.0) }
{
    p.sectors_len().into()
}

// How many bytes: 1, 20, 3, 3.
#[unsafe(no_mangle)]
pub extern "C" fn gpt_bytes_len(p: Partition, b: u64) -> GptLength
    ensures { result ≡ length_to_c (bytes_len p.first_lba.0 p.last_lba.0 b) }
{
    p.bytes_len(b).into()
}

// Where the first byte stands: 1, 3.
#[unsafe(no_mangle)]
pub extern "C" fn gpt_bytes_start(p: Partition, b: u64) -> GptPlace
    ensures { result ≡ place_to_c (place_of p.first_lba.0 b) }
{
    p.bytes_start(b).into()
}

// Stores a record as entry `index` of an array that starts at a block: 1, 7, 28, 3, 2.
#[unsafe(no_mangle)]
pub extern "C" fn gpt_write_entry(
    img: &mut [u8],
    p: Partition,
    index: u64,
    start: u64,
    b: u64,
    entry_size: u32,
) -> GptStored
    ensures { Ends (outcome_to_c stored_to_c (entry_stored img.old p index start b entry_size)) result img.new }
{
    p.write_to_device(img, index, Lba(start), b, entry_size)
        .into()
}

// Stores zeros over `count` entries from entry `index` on: 1, 7, 3, 2.
#[unsafe(no_mangle)]
pub extern "C" fn gpt_write_zero_entries(
    img: &mut [u8],
    index: u64,
    count: u64,
    start: u64,
    b: u64,
    entry_size: u32,
) -> GptStored
    ensures { Ends (outcome_to_c stored_to_c (zeros_stored img.old index count start b entry_size)) result img.new }
{
    Partition::write_zero_entries_to_device(img, index, count, Lba(start), b, entry_size).into()
}

// The entry in a slot of the array that a header names: 1, 3, 7, 2, 6, 18.
#[unsafe(no_mangle)]
pub extern "C" fn gpt_read_partition(img: &[u8], h: Header, b: u64, slot: u32) -> GptSlotRead
    ensures { result ≡ held_to_c (partition_read img.now h b slot) }
{
    partition::read_partition(img, h, b, Slot(slot)).into()
}

// How many entries of that array are present: 1, 3, 7, 2, 6.
#[unsafe(no_mangle)]
pub extern "C" fn gpt_count_partitions(img: &[u8], h: Header, b: u64) -> GptCount
    ensures { result ≡ count_to_c (partition_count img.now h b) }
{
    partition::count_partitions(img, h, b).into()
}

// The first present slot of that array after a slot, where slot 0 stands before the first: 1, 3, 7, 2, 6.
#[unsafe(no_mangle)]
pub extern "C" fn gpt_next_partition(img: &[u8], h: Header, b: u64, after: u32) -> GptNext
    ensures { result ≡ next_to_c (partition_after img.now h b after) }
{
    partition::next_partition(img, h, b, Slot(after)).into()
}

// The present entries of that array into lent bytes, 136 bytes an entry, and how many there are: 1, 3, 7, 2, 6, 15 where there are fewer bytes.
#[unsafe(no_mangle)]
pub extern "C" fn gpt_file_read_partitions(
    img: &[u8],
    h: Header,
    b: u64,
    out: &mut [u8],
) -> GptCount
    ensures { Ends (outcome_to_c count_to_c (bytes_outcome (partitions_read img.now h b (length out.old / 136)) out.old)) result out.new }
{
    let p = rows::inner::plan_for(img, h, b);
    let q = rows::inner::fill_bytes(img, p, out);
    q.answer().into()
}
