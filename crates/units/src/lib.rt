// The ground of the card table: numbers that are kept apart, the refusals of documents 01 and 02, little-endian fields, and the GUID.
// Here stand the public calls: each takes every slice and every number. `inner` has the leaves for our own crates.
#![tactic(auto)]

pub mod inner;
pub mod why; // why.rt: a refusal as a value that the card's tests hand on

ghost use Rattle.std.specs.Prelude.{◌≡◌};
ghost use Rattle.units.specs.Answer.{Ends};
ghost use Rattle.units.specs.declared.Place.TheVariants.{Nowhere};
ghost use Rattle.units.specs.Refusals.{number, later_number};
ghost use Rattle.units.specs.Places.{good_size, inside, place_of, place_after, block_of, array_place_of, slot_of};
ghost use Rattle.units.specs.Numbers.{width_of, bytes_in, value_in, number_read, number_stored};
ghost use Rattle.units.specs.Guids.{guid_read, guid_stored, is_nil, nil_guid};
ghost use Rattle.units.specs.Meanings.{means};

use inner::Field;

// The number of a block.
#[repr(C)]
#[derive(Clone, Copy, Debug, PartialEq, Eq)]
pub struct Lba(pub u64);

// A byte's place in a slice, counted from 0.
#[derive(Clone, Copy, Debug, PartialEq, Eq)]
pub struct BytePlace(pub usize);

// An entry's slot, counted from 1. Its array place counts from 0.
#[repr(C)]
#[derive(Clone, Copy, Debug, PartialEq, Eq)]
pub struct Slot(pub u32);

// Why a call refuses, by the names of documents 01 and 02. Overlap carries the lowest other slot that shares a block, TwinGuid the lowest other slot with that GUID.
#[derive(Clone, Copy, Debug, PartialEq, Eq)]
pub enum Refusal {
    BadBlockSize,
    Short,
    Overflow,
    InvalidGptSignature,
    InvalidCRC32Checksum,
    PartsCrc,
    BadEntrySize,
    ToSmallForBackup,
    MissingBackupLba,
    BackupLbaToEarly,
    WritingToWrongLba,
    InvalidMBRLength,
    InvalidMBRSignature,
    InvalidPartitionLength,
    NoRoom,
    WrongLayout,
    Disagree,
    BadSlot,
    NilType,
    BadRange,
    OutsideUsable,
    Overlap(Slot),
    EmptySlot,
    PastPartition,
    TwinGuid(Slot),
    WrongStage,
    NoGoodCopy,
    ReservedFlag,
    BadHeaderSize,
    DirtyBlock,
    WrongPlace,
    WindowLength,
    TableFull,
    BadMark,
    UnknownVersion,
    BadDate,
    TwoDates,
    EmptyList,
}

impl Refusal {
    // The number of a refusal that document 02 brings; 0 for one of document 01's.
    fn later_number(self) -> u32
        ensures { result ≡ later_number self }
    {
        match self {
            Refusal::TwinGuid(_s) => 25,
            Refusal::WrongStage => 26,
            Refusal::NoGoodCopy => 27,
            Refusal::ReservedFlag => 28,
            Refusal::BadHeaderSize => 29,
            Refusal::DirtyBlock => 30,
            Refusal::WrongPlace => 31,
            Refusal::WindowLength => 32,
            Refusal::TableFull => 33,
            Refusal::BadMark => 34,
            Refusal::UnknownVersion => 35,
            Refusal::BadDate => 36,
            Refusal::TwoDates => 37,
            Refusal::EmptyList => 38,
            _ => 0,
        }
    }

    // The number that document 01 or 02 gives the refusal.
    pub fn number(self) -> u32
        ensures { result ≡ number self }
    {
        match self {
            Refusal::BadBlockSize => 1,
            Refusal::Short => 2,
            Refusal::Overflow => 3,
            Refusal::InvalidGptSignature => 4,
            Refusal::InvalidCRC32Checksum => 5,
            Refusal::PartsCrc => 6,
            Refusal::BadEntrySize => 7,
            Refusal::ToSmallForBackup => 8,
            Refusal::MissingBackupLba => 9,
            Refusal::BackupLbaToEarly => 10,
            Refusal::WritingToWrongLba => 11,
            Refusal::InvalidMBRLength => 12,
            Refusal::InvalidMBRSignature => 13,
            Refusal::InvalidPartitionLength => 14,
            Refusal::NoRoom => 15,
            Refusal::WrongLayout => 16,
            Refusal::Disagree => 17,
            Refusal::BadSlot => 18,
            Refusal::NilType => 19,
            Refusal::BadRange => 20,
            Refusal::OutsideUsable => 21,
            Refusal::Overlap(_s) => 22,
            Refusal::EmptySlot => 23,
            Refusal::PastPartition => 24,
            _ => self.later_number(),
        }
    }
}

// Where the card check found what it refuses by (document 02, 5/13): in the front table, in the back one, in their disk GUIDs, or in the first slot that differs.
#[derive(Clone, Copy, Debug, PartialEq, Eq)]
pub enum Place {
    Nowhere,
    Front,
    Back,
    DiskGuid,
    InSlot(Slot),
}

// Why a card call refuses: the refusal by its name, and the place that it names.
#[derive(Clone, Copy, Debug, PartialEq, Eq)]
pub struct Reason {
    pub what: Refusal,
    pub place: Place,
}

impl Refusal {
    // The refusal with the place that it names.
    pub fn at(self, place: Place) -> Reason
        ensures { result ≡ record { what = self; place = place } }
    {
        Reason { what: self, place }
    }
}

// A refusal that names no place: what `?` makes of one in a card call.
impl From<Refusal> for Reason {
    ghost from_gives = { λ w r. r ≡ record { what = w; place = Nowhere } };

    fn from(what: Refusal) -> Reason {
        what.at(Place::Nowhere)
    }
}

// Whether a block size is 512 or 4,096. Every call that is given another answers 1, first of all.
pub fn good_block_size(b: u64) -> bool
    ensures { result ≡ good_size b }
{
    b == 512 || b == 4096
}

// Whether n bytes from place at on are inside a slice of len bytes; an end past 64 bits is not.
pub fn is_inside(len: usize, at: BytePlace, n: usize) -> bool
    ensures { result ≡ inside len at.0 n }
{
    if len < n {
        return false;
    }
    at.0 <= len - n
}

impl Lba {
    // Where the block starts, in blocks of b bytes: 1, 3.
    pub fn place(self, b: u64) -> Result<BytePlace, Refusal>
        ensures { means result ≡ place_of self.0 b }
    {
        if !good_block_size(b) {
            return Err(Refusal::BadBlockSize);
        }
        let lba = self.0;
        if 0xFFFF_FFFF_FFFF_FFFF / b < lba {
            return Err(Refusal::Overflow);
        }
        Ok(inner::place(self, b))
    }
}

impl BytePlace {
    // The place n bytes further on: 3.
    pub fn after(self, n: usize) -> Result<BytePlace, Refusal>
        ensures { means result ≡ place_after self.0 n }
    {
        let at = self.0;
        if 0xFFFF_FFFF_FFFF_FFFF - at < n {
            return Err(Refusal::Overflow);
        }
        Ok(BytePlace(at + n))
    }

    // The block that holds the byte, in blocks of b bytes: 1.
    pub fn block(self, b: u64) -> Result<Lba, Refusal>
        ensures { means result ≡ block_of self.0 b }
    {
        if !good_block_size(b) {
            return Err(Refusal::BadBlockSize);
        }
        Ok(Lba(self.0 as u64 / b))
    }
}

impl Slot {
    // The slot's place in an array of count entries: 18.
    pub fn array_place(self, count: u32) -> Result<u32, Refusal>
        ensures { means result ≡ array_place_of self.0 count }
    {
        let slot = self.0;
        if slot < 1 || count < slot {
            return Err(Refusal::BadSlot);
        }
        Ok(inner::array_place(self))
    }

    // The slot at a place of an array of count entries: 18.
    pub fn at_array_place(place: u32, count: u32) -> Result<Slot, Refusal>
        ensures { means result ≡ slot_of place count }
    {
        if count <= place {
            return Err(Refusal::BadSlot);
        }
        Ok(inner::slot_at(place))
    }
}

// How many bytes a number takes.
#[derive(Clone, Copy, Debug, PartialEq, Eq)]
pub enum Width {
    Two,
    Four,
    Eight,
}

// A number that takes so many bytes.
#[derive(Clone, Copy, Debug, PartialEq, Eq)]
pub enum Number {
    Two(u16),
    Four(u32),
    Eight(u64),
}

// The number in the bytes at a place, least byte first: 2.
#[tactic(auto, unfolding(crate::specs::Numbers::number_read, crate::specs::Places::inside))]
pub fn read_number(s: &[u8], at: BytePlace, width: Width) -> Result<u64, Refusal>
    ensures { means result ≡ number_read s.now at.0 (width_of width) }
{
    if !is_inside(s.len(), at, width.bytes()) {
        return Err(Refusal::Short);
    }
    Ok(match width {
        Width::Two => u64::from(u16::get(s, at.0)),
        Width::Four => u64::from(u32::get(s, at.0)),
        Width::Eight => u64::get(s, at.0),
    })
}

// Stores a number in the bytes at a place, least byte first: 2.
#[tactic(auto, unfolding(crate::specs::Numbers::number_stored, crate::specs::Places::inside))]
pub fn store_number(s: &mut [u8], at: BytePlace, x: Number) -> Result<usize, Refusal>
    ensures { Ends (number_stored s.old at.0 (bytes_in x) (value_in x)) (means result) s.new }
{
    if !is_inside(s.len(), at, x.bytes()) {
        return Err(Refusal::Short);
    }
    match x {
        Number::Two(v) => v.put(s, at.0),
        Number::Four(v) => v.put(s, at.0),
        Number::Eight(v) => v.put(s, at.0),
    }
    Ok(x.bytes())
}

// The last eight bytes of a GUID, in their order.
#[repr(C)]
#[derive(Clone, Copy, Debug, PartialEq, Eq)]
pub struct Tail(
    pub u8,
    pub u8,
    pub u8,
    pub u8,
    pub u8,
    pub u8,
    pub u8,
    pub u8,
);

// A GUID by its fields (UEFI 2.10, appendix A).
#[repr(C)]
#[derive(Clone, Copy, Debug, PartialEq, Eq)]
pub struct Guid {
    pub time_low: u32,
    pub time_mid: u16,
    pub time_high: u16,
    pub tail: Tail,
}

impl Guid {
    // The GUID whose bytes are all zero.
    pub fn nil() -> Guid
        ensures { result ≡ nil_guid }
    {
        Guid {
            time_low: 0,
            time_mid: 0,
            time_high: 0,
            tail: Tail(0, 0, 0, 0, 0, 0, 0, 0),
        }
    }

    // Whether all sixteen bytes are zero.
    pub fn is_nil(self) -> bool
        ensures { result ≡ is_nil self }
    {
        let t = self.tail;
        let fields = self.time_low == 0 && self.time_mid == 0 && self.time_high == 0;
        fields && inner::tail_is_zero(t)
    }
}

// The GUID in the sixteen bytes at a place: 2.
pub fn read_guid(s: &[u8], at: BytePlace) -> Result<Guid, Refusal>
    ensures { means result ≡ guid_read s.now at.0 }
{
    let a = at.0;
    if !is_inside(s.len(), at, 16) {
        return Err(Refusal::Short);
    }
    Ok(inner::guid_at(s, a))
}

// Stores a GUID in the sixteen bytes at a place: 2.
pub fn store_guid(s: &mut [u8], at: BytePlace, g: Guid) -> Result<usize, Refusal>
    ensures { Ends (guid_stored s.old at.0 g) (means result) s.new }
{
    let a = at.0;
    if !is_inside(s.len(), at, 16) {
        return Err(Refusal::Short);
    }
    inner::put_guid(s, a, g);
    Ok(16)
}
