// The lines of the messages.
ghost use Rattle.std.specs.Prelude.{◌≡◌, ◌≤◌, ◌<◌, length};
ghost use Rattle.message.specs.Words.{text_at};

// One of the 52 lines: those of the numbers 0 to 40, the one of every other number, and from 42 on those of a number with a place of its own.
pub fn words_of(line: u32) -> &'static str
    requires { line < 52 }
    ensures text { result.now ≡ text_at line }
    ensures short { length result.now ≤ 140 }
{
    match line {
        0 => "accepted",
        1 => "refused 1, BadBlockSize: the block size is neither 512 nor 4,096",
        2 => "refused 2, Short: the bytes to read or write are not all inside the slice",
        3 => "refused 3, Overflow: a product or sum passes its width",
        4 => "refused 4, InvalidGptSignature: the header does not begin with EFI PART",
        5 => "refused 5, InvalidCRC32Checksum: the header's check sum does not match",
        6 => "refused 6, PartsCrc: the entry array's check sum does not match",
        7 => "refused 7, BadEntrySize: an entry size that cannot be read or written",
        8 => "refused 8, ToSmallForBackup: the image is shorter than three blocks",
        9 => "refused 9, MissingBackupLba: the backup comes before the primary",
        10 => "refused 10, BackupLbaToEarly: there is no room between the two tables",
        11 =>
            "refused 11, WritingToWrongLba: a primary's block is not before its backup's, or a backup's not after its primary's",
        12 => "refused 12, InvalidMBRLength: the buffer is not one block long",
        13 => "refused 13, InvalidMBRSignature: bytes 510 and 511 are not 55 AA",
        14 => "refused 14, InvalidPartitionLength: the MBR record's buffer is not 16 bytes long",
        15 =>
            "refused 15, NoRoom: more entries or runs are there than there is room for in what was lent",
        16 => "refused 16, WrongLayout: the table is not laid out as a card's",
        17 => "refused 17, Disagree: the two tables differ",
        18 => "refused 18, BadSlot: there is no such slot or record",
        19 => "refused 19, NilType: a partition of no type",
        20 => "refused 20, BadRange: the last block comes before the first",
        21 => "refused 21, OutsideUsable: a block outside the usable ones",
        22 => "refused 22, Overlap: a block that another slot has",
        23 => "refused 23, EmptySlot: the slot is not used",
        24 => "refused 24, PastPartition: the bytes pass the partition's end",
        25 => "refused 25, TwinGuid: a partition GUID that another used slot has",
        26 =>
            "refused 26, WrongStage: the state does not lead to this stage on an image of this length and block size",
        27 => "refused 27, NoGoodCopy: neither table of the card can be read",
        28 => "refused 28, ReservedFlag: a flag that UEFI keeps reserved",
        29 =>
            "refused 29, BadHeaderSize: the header's stated size is below 92 or above the block size",
        30 =>
            "refused 30, DirtyBlock: the header's block has other bytes than zero after the header",
        31 =>
            "refused 31, WrongPlace: the header names another block than the one it was read from",
        32 => "refused 32, WindowLength: a window is not as long as the card asks for",
        33 => "refused 33, TableFull: all 128 slots are used",
        34 => "refused 34, BadMark: the map does not begin with the mark FBM",
        35 => "refused 35, UnknownVersion: the label's version is not 1",
        36 => "refused 36, BadDate: the label's month is not 1 to 12, or its day not 1 to 31",
        37 => "refused 37, TwoDates: the maps have two dates or two style revisions",
        38 => "refused 38, EmptyList: no slot was named",
        39 => "refused 39, BadText: the text is no GUID, or no UTF-8, or has a zero in it",
        40 => "refused 40, LongName: the name has more than 36 UTF-16 units",
        41 => "the library has no such number",
        42 =>
            "refused 4, InvalidGptSignature: the front table's header does not begin with EFI PART",
        43 =>
            "refused 4, InvalidGptSignature: the back table's header does not begin with EFI PART",
        44 => "refused 5, InvalidCRC32Checksum: the front table's header check sum does not match",
        45 => "refused 5, InvalidCRC32Checksum: the back table's header check sum does not match",
        46 => "refused 6, PartsCrc: the front table's entry check sum does not match",
        47 => "refused 6, PartsCrc: the back table's entry check sum does not match",
        48 => "refused 16, WrongLayout: the front table is not laid out as a card's",
        49 => "refused 16, WrongLayout: the back table is not laid out as a card's",
        50 => "refused 17, Disagree: the two tables have different disk GUIDs",
        _ => "refused 17, Disagree: the two tables differ, first in slot ",
    }
}
