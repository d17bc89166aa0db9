// A refusal as a value: what the card's tests hand on from the first of them to the answer. Public answers have it by its name.
ghost use Rattle.std.specs.Prelude.{◌≡◌};
ghost use Rattle.units.specs.Refusals.{refusal_of, later_refusal, reason_of};
ghost use Rattle.units.specs.Meanings.{verdict_of};

use crate::{Place, Reason, Refusal, Slot};

// The number of documents 01 and 02, 0 where nothing refuses; the slot that 22 or 25 names, else slot 0; the place that the card check names, else none.
#[derive(Clone, Copy)]
pub struct Why {
    pub number: u32,
    pub slot: Slot,
    pub place: Place,
}

// Nothing refuses.
pub const FINE: Why = Why {
    number: 0,
    slot: Slot(0),
    place: Place::Nowhere,
};

// The numbers that the tests of the room and of one table give: which table it was, the check says.
pub const BAD_BLOCK_SIZE: u32 = 1;

pub const INVALID_GPT_SIGNATURE: u32 = 4;

pub const INVALID_CRC32_CHECKSUM: u32 = 5;

pub const PARTS_CRC: u32 = 6;

pub const TO_SMALL_FOR_BACKUP: u32 = 8;

pub const BACKUP_LBA_TO_EARLY: u32 = 10;

pub const WRONG_LAYOUT: u32 = 16;

pub const DISAGREE: u32 = 17;

// The two tables have different disk GUIDs.
pub const TWO_DISK_GUIDS: Why = Why {
    number: DISAGREE,
    slot: Slot(0),
    place: Place::DiskGuid,
};

// The entries are wrong: they count as the front table's.
pub const WRONG_ENTRIES: Why = Why {
    number: WRONG_LAYOUT,
    slot: Slot(0),
    place: Place::Front,
};

// The refusals that name nothing.
pub const BAD_SLOT: Why = Why {
    number: 18,
    slot: Slot(0),
    place: Place::Nowhere,
};

pub const NIL_TYPE: Why = Why {
    number: 19,
    slot: Slot(0),
    place: Place::Nowhere,
};

pub const BAD_RANGE: Why = Why {
    number: 20,
    slot: Slot(0),
    place: Place::Nowhere,
};

pub const OUTSIDE_USABLE: Why = Why {
    number: 21,
    slot: Slot(0),
    place: Place::Nowhere,
};

pub const EMPTY_SLOT: Why = Why {
    number: 23,
    slot: Slot(0),
    place: Place::Nowhere,
};

pub const PAST_PARTITION: Why = Why {
    number: 24,
    slot: Slot(0),
    place: Place::Nowhere,
};

pub const RESERVED_FLAG: Why = Why {
    number: 28,
    slot: Slot(0),
    place: Place::Nowhere,
};

impl Why {
    // The refusal of document 02 by its name; the last name for a number that is none of theirs.
    #[tactic(auto, unfolding(crate::specs::Refusals::refusal_of))]
    fn later_refusal(self) -> Refusal
        ensures { result ≡ later_refusal self }
    {
        let n = self.number;
        let slot = self.slot;
        match n {
            25 => Refusal::TwinGuid(slot),
            26 => Refusal::WrongStage,
            27 => Refusal::NoGoodCopy,
            28 => Refusal::ReservedFlag,
            29 => Refusal::BadHeaderSize,
            30 => Refusal::DirtyBlock,
            31 => Refusal::WrongPlace,
            32 => Refusal::WindowLength,
            33 => Refusal::TableFull,
            34 => Refusal::BadMark,
            35 => Refusal::UnknownVersion,
            36 => Refusal::BadDate,
            37 => Refusal::TwoDates,
            _ => Refusal::EmptyList,
        }
    }

    // The refusal by its name. No test gives a number past the last name.
    #[tactic(auto, unfolding(crate::specs::Refusals::refusal_of))]
    pub fn refusal(self) -> Refusal
        ensures { result ≡ refusal_of self }
    {
        let n = self.number;
        let slot = self.slot;
        match n {
            1 => Refusal::BadBlockSize,
            2 => Refusal::Short,
            3 => Refusal::Overflow,
            4 => Refusal::InvalidGptSignature,
            5 => Refusal::InvalidCRC32Checksum,
            6 => Refusal::PartsCrc,
            7 => Refusal::BadEntrySize,
            8 => Refusal::ToSmallForBackup,
            9 => Refusal::MissingBackupLba,
            10 => Refusal::BackupLbaToEarly,
            11 => Refusal::WritingToWrongLba,
            12 => Refusal::InvalidMBRLength,
            13 => Refusal::InvalidMBRSignature,
            14 => Refusal::InvalidPartitionLength,
            15 => Refusal::NoRoom,
            16 => Refusal::WrongLayout,
            17 => Refusal::Disagree,
            18 => Refusal::BadSlot,
            19 => Refusal::NilType,
            20 => Refusal::BadRange,
            21 => Refusal::OutsideUsable,
            22 => Refusal::Overlap(slot),
            23 => Refusal::EmptySlot,
            24 => Refusal::PastPartition,
            _ => self.later_refusal(),
        }
    }

    // The refusal by its name, with its place.
    pub fn reason(self) -> Reason
        ensures { result ≡ reason_of self }
    {
        let place = self.place;
        Reason {
            what: self.refusal(),
            place,
        }
    }

    // The verdict by its name.
    pub fn verdict(self) -> Result<(), Reason>
        ensures { result ≡ verdict_of self }
    {
        let n = self.number;
        if n == 0 {
            return Ok(());
        }
        Err(self.reason())
    }
}
