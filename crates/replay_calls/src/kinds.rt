// The kinds of calls: which there are, and how long the arguments and the answer of each are. README.md, beside the folder `src`, has the format.
ghost use Rattle.std.specs.Prelude.{◌≡◌, ◌≤◌, Some};
ghost use Rattle.replay_calls.specs.Lengths.{first_len, values_len, sum_len, rest_len, answer_len};
ghost use Rattle.replay_calls.specs.Texts.{kind_text, unknown_kind_text};

use std::error::Error;
use std::fmt;

// A call, with the number that it has on the tape.
#[derive(Clone, Copy, Debug, PartialEq, Eq, PartialOrd, Ord)]
pub enum Kind {
    ReadPrimary = 0x10,
    ReadBackup = 0x11,
    FindBackup = 0x12,
    ArraySum = 0x13,
    WritePrimary = 0x14,
    WriteBackup = 0x15,
    Build = 0x16,
    BuildFromHeader = 0x17,
    ReadArray = 0x20,
    WriteEntry = 0x21,
    WriteZeros = 0x22,
    Lengths = 0x23,
    EntryBytes = 0x24,
    MbrFromBytes = 0x30,
    MbrFromImage = 0x31,
    MbrOverwrite = 0x32,
    MbrUpdate = 0x33,
    MbrRecord = 0x34,
}

// A step of the tape: its end, an image of zeros, bytes stored in the image, or a call.
#[derive(Clone, Copy, Debug, PartialEq, Eq)]
pub enum Step {
    End,
    Image,
    Store,
    Call(Kind),
}

// A byte that begins no step.
#[derive(Clone, Copy, Debug, PartialEq, Eq)]
pub struct UnknownKind;

impl fmt::Display for UnknownKind {
    ghost output = { λ _. Some unknown_kind_text };

    fn fmt<W: fmt::Write>(&self, f: &mut fmt::Formatter<W>) -> fmt::Result {
        write!(f, "a step of an unknown kind")
    }
}

impl Error for UnknownKind {}

impl TryFrom<u8> for Kind {
    type Error = UnknownKind;

    fn try_from(byte: u8) -> Result<Kind, UnknownKind> {
        match byte {
            0x10 => Ok(Kind::ReadPrimary),
            0x11 => Ok(Kind::ReadBackup),
            0x12 => Ok(Kind::FindBackup),
            0x13 => Ok(Kind::ArraySum),
            0x14 => Ok(Kind::WritePrimary),
            0x15 => Ok(Kind::WriteBackup),
            0x16 => Ok(Kind::Build),
            0x17 => Ok(Kind::BuildFromHeader),
            0x20 => Ok(Kind::ReadArray),
            0x21 => Ok(Kind::WriteEntry),
            0x22 => Ok(Kind::WriteZeros),
            0x23 => Ok(Kind::Lengths),
            0x24 => Ok(Kind::EntryBytes),
            0x30 => Ok(Kind::MbrFromBytes),
            0x31 => Ok(Kind::MbrFromImage),
            0x32 => Ok(Kind::MbrOverwrite),
            0x33 => Ok(Kind::MbrUpdate),
            0x34 => Ok(Kind::MbrRecord),
            _ => Err(UnknownKind),
        }
    }
}

impl TryFrom<u8> for Step {
    type Error = UnknownKind;

    fn try_from(byte: u8) -> Result<Step, UnknownKind> {
        match byte {
            0x00 => Ok(Step::End),
            0x01 => Ok(Step::Image),
            0x02 => Ok(Step::Store),
            _ => Ok(Step::Call(Kind::try_from(byte)?)),
        }
    }
}

impl Kind {
    // How many bytes of arguments are always there. Those of an MBR record are a length, and as many bytes more.
    pub fn arguments(self) -> usize
        ensures { result ≤ 156 }
    {
        match self {
            Kind::ReadPrimary
            | Kind::ReadBackup
            | Kind::FindBackup
            | Kind::MbrFromBytes
            | Kind::MbrFromImage => 8,
            Kind::ArraySum
            | Kind::WritePrimary
            | Kind::WriteBackup
            | Kind::BuildFromHeader
            | Kind::ReadArray => 92,
            Kind::Build => 58,
            Kind::WriteEntry => 156,
            Kind::WriteZeros => 36,
            Kind::Lengths => 24,
            Kind::EntryBytes => 130,
            Kind::MbrOverwrite | Kind::MbrUpdate => 4,
            Kind::MbrRecord => 1,
        }
    }

    // How many bytes of an answer are always there: its number, or the whole answer of a call that has no number of its own.
    pub fn first(self) -> usize
        ensures length { result ≡ first_len self }
        ensures bound { result ≤ 27 }
    {
        match self {
            Kind::Lengths => 27,
            Kind::EntryBytes => 4,
            _ => 1,
        }
    }

    // How many bytes the values of an accepted call take.
    fn values(self) -> usize
        ensures length { result ≡ values_len self }
        ensures bound { result ≤ 88 }
    {
        match self {
            Kind::ReadPrimary | Kind::ReadBackup | Kind::Build | Kind::BuildFromHeader => 84,
            Kind::WritePrimary | Kind::WriteBackup => 88,
            Kind::FindBackup | Kind::ReadArray => 8,
            Kind::ArraySum | Kind::MbrFromBytes | Kind::MbrFromImage => 4,
            Kind::MbrRecord => 16,
            _ => 0,
        }
    }

    // How many bytes the sum of the image takes: it follows what a call that can change the image answers.
    fn sum(self) -> usize
        ensures length { result ≡ sum_len self }
        ensures bound { result ≤ 4 }
    {
        match self {
            Kind::WritePrimary
            | Kind::WriteBackup
            | Kind::WriteEntry
            | Kind::WriteZeros
            | Kind::MbrOverwrite
            | Kind::MbrUpdate => 4,
            _ => 0,
        }
    }

    // How many bytes of an answer follow the first, where the number is this.
    pub fn rest(self, number: u8) -> usize
        ensures length { result ≡ rest_len self number }
        ensures bound { result ≤ 92 }
    {
        if number == 0 {
            self.values() + self.sum()
        } else {
            self.sum()
        }
    }

    // How many bytes an answer has that begins with this byte.
    pub fn length(self, number: u8) -> usize
        ensures length { result ≡ answer_len self number }
        ensures bound { result ≤ 119 }
    {
        self.first() + self.rest(number)
    }
}

// The calls that a kind stands for.
impl fmt::Display for Kind {
    ghost output = { λ kind. Some (kind_text kind) };

    fn fmt<W: fmt::Write>(&self, f: &mut fmt::Formatter<W>) -> fmt::Result {
        match self {
            Kind::ReadPrimary => write!(f, "read_primary_header"),
            Kind::ReadBackup => write!(f, "read_backup_header"),
            Kind::FindBackup => write!(f, "find_backup_lba"),
            Kind::ArraySum => write!(f, "partentry_checksum"),
            Kind::WritePrimary => write!(f, "write_primary"),
            Kind::WriteBackup => write!(f, "write_backup"),
            Kind::Build => write!(f, "build, new"),
            Kind::BuildFromHeader => write!(f, "build, from_header"),
            Kind::ReadArray => write!(f, "file_read_partitions"),
            Kind::WriteEntry => write!(f, "write_to_device"),
            Kind::WriteZeros => write!(f, "write_zero_entries_to_device"),
            Kind::Lengths => write!(f, "sectors_len, bytes_len, bytes_start"),
            Kind::EntryBytes => write!(f, "entry to a buffer"),
            Kind::MbrFromBytes => write!(f, "MBR from_bytes"),
            Kind::MbrFromImage => write!(f, "MBR from_image"),
            Kind::MbrOverwrite => write!(f, "MBR overwrite_lba0"),
            Kind::MbrUpdate => write!(f, "MBR update_conservative"),
            Kind::MbrRecord => write!(f, "MBR record from_bytes"),
        }
    }
}
