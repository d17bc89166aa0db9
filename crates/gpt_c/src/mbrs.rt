// The ported calls on the protective MBR for C. Its fields are those of the struct, so C reads and sets them itself.
ghost use Rattle.units.specs.Meanings.{means};
ghost use Rattle.std.specs.Prelude.{◌≡◌};
ghost use Rattle.units.specs.Answer.{Ends};
ghost use Rattle.mbr.specs.Format.{record_bytes, mbr_bytes, protective, fresh};
ghost use Rattle.mbr.specs.Parsing.{record_parsed, mbr_parsed, image_parsed, bytes_read};
ghost use Rattle.mbr.specs.Changing.{record_taken, record_set};
ghost use Rattle.mbr.specs.Storing.{whole_stored, tail_stored, bytes_stored};
ghost use Rattle.answers_c.specs.Crossing.{outcome_to_c};
ghost use Rattle.gpt_c.specs.Exports.{stored_to_c, zero_mbr, mbr_to_c, record_to_c, set_to_c, bootcode_to_c, signature_to_c};

use crate::stored::GptStored;
use mbr::{Changed, PartRecord, ProtectiveMbr};
use units::Refusal;

#[repr(C)]
#[derive(Clone, Copy, Debug, PartialEq, Eq)]
pub struct GptMbrRead {
    pub number: u32,
    pub mbr: ProtectiveMbr,
}

#[repr(C)]
#[derive(Clone, Copy, Debug, PartialEq, Eq)]
pub struct GptRecordRead {
    pub number: u32,
    pub part_record: PartRecord,
}

// The record that stood there, and the MBR with the new one.
#[repr(C)]
#[derive(Clone, Copy, Debug, PartialEq, Eq)]
pub struct GptRecordSet {
    pub number: u32,
    pub old: PartRecord,
    pub mbr: ProtectiveMbr,
}

#[repr(C)]
#[derive(Clone, Copy, Debug, PartialEq, Eq)]
pub struct GptBootcodeRead {
    pub number: u32,
    pub bootcode: [u8; 440],
}

#[repr(C)]
#[derive(Clone, Copy, Debug, PartialEq, Eq)]
pub struct GptSignatureRead {
    pub number: u32,
    pub disk_signature: [u8; 4],
}

// Arrays cross in structs.
#[repr(C)]
#[derive(Clone, Copy, Debug, PartialEq, Eq)]
pub struct GptBootcode {
    pub bytes: [u8; 440],
}

#[repr(C)]
#[derive(Clone, Copy, Debug, PartialEq, Eq)]
pub struct GptSignature {
    pub bytes: [u8; 4],
}

#[repr(C)]
#[derive(Clone, Copy, Debug, PartialEq, Eq)]
pub struct GptRecordBytes {
    pub bytes: [u8; 16],
}

#[repr(C)]
#[derive(Clone, Copy, Debug, PartialEq, Eq)]
pub struct GptMbrBytes {
    pub bytes: [u8; 512],
}

// What stands beside a refusal.
fn zero_mbr() -> ProtectiveMbr
    ensures { result ≡ zero_mbr }
{
    ProtectiveMbr {
        bootcode: [0; 440],
        disk_signature: [0; 4],
        unknown: 0,
        partitions: [PartRecord::zero(); 4],
    }
}

impl From<Result<ProtectiveMbr, Refusal>> for GptMbrRead {
    ghost from_gives = { λ r a. a ≡ mbr_to_c (means r) };

    #[tactic(auto, unfolding(answers_c::specs::Crossing::crossed))]
    fn from(r: Result<ProtectiveMbr, Refusal>) -> GptMbrRead {
        match r {
            Ok(mbr) => GptMbrRead { number: 0, mbr },
            Err(w) => GptMbrRead {
                number: w.number(),
                mbr: zero_mbr(),
            },
        }
    }
}

impl From<Result<PartRecord, Refusal>> for GptRecordRead {
    ghost from_gives = { λ r a. a ≡ record_to_c (means r) };

    #[tactic(auto, unfolding(answers_c::specs::Crossing::crossed))]
    fn from(r: Result<PartRecord, Refusal>) -> GptRecordRead {
        match r {
            Ok(part_record) => GptRecordRead {
                number: 0,
                part_record,
            },
            Err(w) => GptRecordRead {
                number: w.number(),
                part_record: PartRecord::zero(),
            },
        }
    }
}

impl From<Result<Changed, Refusal>> for GptRecordSet {
    ghost from_gives = { λ r a. a ≡ set_to_c (means r) };

    #[tactic(auto, unfolding(answers_c::specs::Crossing::crossed))]
    fn from(r: Result<Changed, Refusal>) -> GptRecordSet {
        match r {
            Ok(c) => GptRecordSet {
                number: 0,
                old: c.old,
                mbr: c.mbr,
            },
            Err(w) => GptRecordSet {
                number: w.number(),
                old: PartRecord::zero(),
                mbr: zero_mbr(),
            },
        }
    }
}

impl From<Result<[u8; 440], Refusal>> for GptBootcodeRead {
    ghost from_gives = { λ r a. a ≡ bootcode_to_c (means r) };

    #[tactic(auto, unfolding(answers_c::specs::Crossing::crossed))]
    fn from(r: Result<[u8; 440], Refusal>) -> GptBootcodeRead {
        match r {
            Ok(bootcode) => GptBootcodeRead {
                number: 0,
                bootcode,
            },
            Err(w) => GptBootcodeRead {
                number: w.number(),
                bootcode: [0; 440],
            },
        }
    }
}

impl From<Result<[u8; 4], Refusal>> for GptSignatureRead {
    ghost from_gives = { λ r a. a ≡ signature_to_c (means r) };

    #[tactic(auto, unfolding(answers_c::specs::Crossing::crossed))]
    fn from(r: Result<[u8; 4], Refusal>) -> GptSignatureRead {
        match r {
            Ok(disk_signature) => GptSignatureRead {
                number: 0,
                disk_signature,
            },
            Err(w) => GptSignatureRead {
                number: w.number(),
                disk_signature: [0; 4],
            },
        }
    }
}

// The MBR of a disk with lb_size blocks after block 0.
#[unsafe(no_mangle)]
pub extern "C" fn gpt_mbr_new(lb_size: u32) -> ProtectiveMbr
    ensures { result ≡ fresh lb_size }
{
    ProtectiveMbr::with_lb_size(lb_size)
}

// The protective record of such a disk.
#[unsafe(no_mangle)]
pub extern "C" fn gpt_mbr_protective_record(lb_size: u32) -> PartRecord
    ensures { result ≡ protective lb_size }
{
    PartRecord::new_protective(lb_size)
}

// The MBR in a buffer of one block: 1, 12, 13.
#[unsafe(no_mangle)]
pub extern "C" fn gpt_mbr_from_bytes(buf: &[u8], b: u64) -> GptMbrRead
    ensures { result ≡ mbr_to_c (mbr_parsed buf.now b) }
{
    ProtectiveMbr::from_bytes(buf, b).into()
}

// The MBR in block 0 of an image: 1, 2, 13.
#[unsafe(no_mangle)]
pub extern "C" fn gpt_mbr_from_image(img: &[u8], b: u64) -> GptMbrRead
    ensures { result ≡ mbr_to_c (image_parsed img.now b) }
{
    ProtectiveMbr::from_image(img, b).into()
}

// The record in a buffer of 16 bytes: 14.
#[unsafe(no_mangle)]
pub extern "C" fn gpt_mbr_record_from_bytes(buf: &[u8]) -> GptRecordRead
    ensures { result ≡ record_to_c (record_parsed buf.now) }
{
    PartRecord::from_bytes(buf).into()
}

// The 16 bytes of a record.
#[unsafe(no_mangle)]
pub extern "C" fn gpt_mbr_record_to_bytes(p: PartRecord) -> GptRecordBytes
    ensures { result ≡ record { bytes = record_bytes p } }
{
    GptRecordBytes {
        bytes: p.to_bytes(),
    }
}

// The MBR's 512 bytes, as they are stored.
#[unsafe(no_mangle)]
pub extern "C" fn gpt_mbr_to_bytes(m: ProtectiveMbr) -> GptMbrBytes
    ensures { result ≡ record { bytes = mbr_bytes m } }
{
    GptMbrBytes {
        bytes: m.to_bytes(),
    }
}

// The record at a place from 0 to 3: 18.
#[unsafe(no_mangle)]
pub extern "C" fn gpt_mbr_record(m: ProtectiveMbr, place: usize) -> GptRecordRead
    ensures { result ≡ record_to_c (record_taken m place) }
{
    m.partition(place).into()
}

// The MBR with a record set at a place from 0 to 3, and the record that stood there: 18.
#[unsafe(no_mangle)]
pub extern "C" fn gpt_mbr_set_record(m: ProtectiveMbr, place: usize, p: PartRecord) -> GptRecordSet
    ensures { result ≡ set_to_c (record_set m place p) }
{
    m.set_partition(place, p).into()
}

// Stores the MBR over bytes 0 to 511: 2.
#[unsafe(no_mangle)]
pub extern "C" fn gpt_mbr_overwrite(img: &mut [u8], m: ProtectiveMbr) -> GptStored
    ensures { Ends (outcome_to_c stored_to_c (whole_stored img.old m)) result img.new }
{
    m.overwrite_lba0(img).into()
}

// Stores the four records and 55 AA over bytes 446 to 511: 2.
#[unsafe(no_mangle)]
pub extern "C" fn gpt_mbr_update_conservative(img: &mut [u8], m: ProtectiveMbr) -> GptStored
    ensures { Ends (outcome_to_c stored_to_c (tail_stored img.old m)) result img.new }
{
    m.update_conservative(img).into()
}

// The boot code of an image: 2.
#[unsafe(no_mangle)]
pub extern "C" fn gpt_mbr_read_bootcode(img: &[u8]) -> GptBootcodeRead
    ensures { result ≡ bootcode_to_c (bytes_read img.now 0 440) }
{
    mbr::read_bootcode(img).into()
}

// Stores boot code over bytes 0 to 439 of an image: 2.
#[unsafe(no_mangle)]
pub extern "C" fn gpt_mbr_write_bootcode(img: &mut [u8], code: GptBootcode) -> GptStored
    ensures { Ends (outcome_to_c stored_to_c (bytes_stored img.old 0 code.bytes)) result img.new }
{
    mbr::write_bootcode(img, &code.bytes).into()
}

// The disk signature of an image: 2.
#[unsafe(no_mangle)]
pub extern "C" fn gpt_mbr_read_disk_signature(img: &[u8]) -> GptSignatureRead
    ensures { result ≡ signature_to_c (bytes_read img.now 440 4) }
{
    mbr::read_disk_signature(img).into()
}

// Stores a disk signature over bytes 440 to 443 of an image: 2.
#[unsafe(no_mangle)]
pub extern "C" fn gpt_mbr_write_disk_signature(img: &mut [u8], signature: GptSignature) -> GptStored
    ensures { Ends (outcome_to_c stored_to_c (bytes_stored img.old 440 signature.bytes)) result img.new }
{
    mbr::write_disk_signature(img, &signature.bytes).into()
}
