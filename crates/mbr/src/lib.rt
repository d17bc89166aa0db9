// The protective MBR by value: parsed from a block, written to 512 bytes, and stored in a lent image. Bytes 512 onward of a larger block 0 are never read or written.
// Here stand the public calls: each takes every image and every number. `inner` has the leaves for our own crates.
#![tactic(auto)]

pub mod inner;

ghost use Rattle.std.specs.Prelude.{◌≡◌, length};
ghost use Rattle.units.specs.Answer.{Ends};
ghost use Rattle.units.specs.Meanings.{means};
ghost use Rattle.mbr.specs.Format.{record_bytes, mbr_bytes, protective, zero_record, fresh};
ghost use Rattle.mbr.specs.Parsing.{record_parsed, mbr_parsed, image_parsed, bytes_read};
ghost use Rattle.mbr.specs.Changing.{with_bootcode, with_signature, record_taken, record_set};
ghost use Rattle.mbr.specs.Storing.{whole_stored, tail_stored, bytes_stored};

use units::Refusal;
use units::inner::Field;

// A partition record of 16 bytes, by its fields.
#[repr(C)]
#[derive(Clone, Copy, Debug, PartialEq, Eq)]
pub struct PartRecord {
    pub boot_indicator: u8,
    pub start_head: u8,
    pub start_sector: u8,
    pub start_track: u8,
    pub os_type: u8,
    pub end_head: u8,
    pub end_sector: u8,
    pub end_track: u8,
    pub lb_start: u32,
    pub lb_size: u32,
}

// The MBR by its fields (UEFI 2.10, 5.2.3). The bytes 55 AA are no field: they are compared on parsing and stored on writing.
#[repr(C)]
#[derive(Clone, Copy, Debug, PartialEq, Eq)]
pub struct ProtectiveMbr {
    pub bootcode: [u8; 440],
    pub disk_signature: [u8; 4],
    pub unknown: u16,
    pub partitions: [PartRecord; 4],
}

// What setting a record gives: the record that stood there, and the MBR with the new one.
#[derive(Clone, Copy, Debug, PartialEq, Eq)]
pub struct Changed {
    pub old: PartRecord,
    pub mbr: ProtectiveMbr,
}

impl PartRecord {
    // The protective record of a disk with lb_size blocks after block 0.
    pub fn new_protective(lb_size: u32) -> PartRecord
        ensures { result ≡ protective lb_size }
    {
        PartRecord {
            boot_indicator: 0,
            start_head: 0,
            start_sector: 2,
            start_track: 0,
            os_type: 0xEE,
            end_head: 0xFF,
            end_sector: 0xFF,
            end_track: 0xFF,
            lb_start: 1,
            lb_size,
        }
    }

    pub fn zero() -> PartRecord
        ensures { result ≡ zero_record }
    {
        PartRecord {
            boot_indicator: 0,
            start_head: 0,
            start_sector: 0,
            start_track: 0,
            os_type: 0,
            end_head: 0,
            end_sector: 0,
            end_track: 0,
            lb_start: 0,
            lb_size: 0,
        }
    }

    // The record in a buffer of 16 bytes: 14.
    pub fn from_bytes(buf: &[u8]) -> Result<PartRecord, Refusal>
        ensures { means result ≡ record_parsed buf.now }
    {
        if buf.len() != 16 {
            return Err(Refusal::InvalidPartitionLength);
        }
        Ok(inner::record_at(buf, 0))
    }

    pub fn to_bytes(self) -> [u8; 16]
        ensures { result ≡ record_bytes self }
    {
        let mut out = [0; 16];
        inner::put_record(&mut out, 0, self);
        out
    }
}

impl ProtectiveMbr {
    // The MBR of a disk whose size is too large to say.
    pub fn new() -> ProtectiveMbr
        ensures { result ≡ fresh 0xFFFFFFFF }
    {
        ProtectiveMbr::with_lb_size(0xFFFF_FFFF)
    }

    // The MBR of a disk with lb_size blocks after block 0.
    pub fn with_lb_size(lb_size: u32) -> ProtectiveMbr
        ensures { result ≡ fresh lb_size }
    {
        ProtectiveMbr {
            bootcode: [0; 440],
            disk_signature: [0; 4],
            unknown: 0,
            partitions: [
                PartRecord::new_protective(lb_size),
                PartRecord::zero(),
                PartRecord::zero(),
                PartRecord::zero(),
            ],
        }
    }

    // The MBR in a buffer of one block: 1, 12, 13.
    pub fn from_bytes(buf: &[u8], b: u64) -> Result<ProtectiveMbr, Refusal>
        ensures { means result ≡ mbr_parsed buf.now b }
    {
        if !units::good_block_size(b) {
            return Err(Refusal::BadBlockSize);
        }
        if buf.len() as u64 != b {
            return Err(Refusal::InvalidMBRLength);
        }
        if !units::inner::same_at(buf, 510, b"\x55\xAA") {
            return Err(Refusal::InvalidMBRSignature);
        }
        Ok(inner::mbr_at(buf, 0))
    }

    // The MBR in block 0 of an image: 1, 2, 13.
    pub fn from_image(img: &[u8], b: u64) -> Result<ProtectiveMbr, Refusal>
        ensures { means result ≡ image_parsed img.now b }
    {
        if !units::good_block_size(b) {
            return Err(Refusal::BadBlockSize);
        }
        let size = b as usize;
        if img.len() < size {
            return Err(Refusal::Short);
        }
        ProtectiveMbr::from_bytes(&img[..size], b)
    }

    // Its 512 bytes, whatever the block size is.
    pub fn to_bytes(self) -> [u8; 512]
        ensures { result ≡ mbr_bytes self }
    {
        let boot = self.bootcode;
        let signature = self.disk_signature;
        let records = self.partitions;
        let mut out = [0; 512];
        units::inner::put_bytes(&mut out, 0, &boot);
        units::inner::put_bytes(&mut out, 440, &signature);
        self.unknown.put(&mut out, 444);
        inner::put_tail(&mut out, 446, records);
        out
    }

    pub fn bootcode(self) -> [u8; 440]
        ensures { result ≡ self.bootcode }
    {
        let code = self.bootcode;
        code
    }

    pub fn set_bootcode(mut self, bootcode: [u8; 440]) -> ProtectiveMbr
        ensures { result ≡ with_bootcode self bootcode }
    {
        self.bootcode = bootcode;
        self
    }

    pub fn disk_signature(self) -> [u8; 4]
        ensures { result ≡ self.disk_signature }
    {
        let signature = self.disk_signature;
        signature
    }

    pub fn set_disk_signature(mut self, disk_signature: [u8; 4]) -> ProtectiveMbr
        ensures { result ≡ with_signature self disk_signature }
    {
        self.disk_signature = disk_signature;
        self
    }

    // The record at a place from 0 to 3: 18.
    pub fn partition(self, place: usize) -> Result<PartRecord, Refusal>
        ensures { means result ≡ record_taken self place }
    {
        if 4 <= place {
            return Err(Refusal::BadSlot);
        }
        let records = self.partitions;
        Ok(records[place])
    }

    // The MBR with a record set at a place from 0 to 3, and the record that stood there: 18.
    pub fn set_partition(mut self, place: usize, partition: PartRecord) -> Result<Changed, Refusal>
        ensures { means result ≡ record_set self place partition }
    {
        if 4 <= place {
            return Err(Refusal::BadSlot);
        }
        let old = self.partitions[place];
        self.partitions[place] = partition;
        Ok(Changed { old, mbr: self })
    }

    // Stores the MBR over bytes 0 to 511: 2.
    pub fn overwrite_lba0(self, img: &mut [u8]) -> Result<usize, Refusal>
        ensures { Ends (whole_stored img.old self) (means result) img.new }
    {
        if img.len() < 512 {
            return Err(Refusal::Short);
        }
        let bytes = self.to_bytes();
        units::inner::put_bytes(img, 0, &bytes);
        Ok(512)
    }

    // Stores the four records and 55 AA over bytes 446 to 511: 2.
    pub fn update_conservative(self, img: &mut [u8]) -> Result<usize, Refusal>
        ensures { Ends (tail_stored img.old self) (means result) img.new }
    {
        if img.len() < 512 {
            return Err(Refusal::Short);
        }
        let records = self.partitions;
        inner::put_tail(img, 446, records);
        Ok(66)
    }
}

// The 440 bytes of boot code of an image: 2.
pub fn read_bootcode(img: &[u8]) -> Result<[u8; 440], Refusal>
    ensures { means result ≡ bytes_read img.now 0 440 }
{
    if img.len() < 440 {
        return Err(Refusal::Short);
    }
    let mut bootcode = [0; 440];
    units::inner::copy_out(&mut bootcode, img, 0);
    Ok(bootcode)
}

// Stores boot code over bytes 0 to 439 of an image: 2.
pub fn write_bootcode(img: &mut [u8], bootcode: &[u8; 440]) -> Result<usize, Refusal>
    ensures { Ends (bytes_stored img.old 0 bootcode.now) (means result) img.new }
{
    inner::store_bytes(img, 0, bootcode)
}

// The 4 bytes of disk signature of an image: 2.
pub fn read_disk_signature(img: &[u8]) -> Result<[u8; 4], Refusal>
    ensures { means result ≡ bytes_read img.now 440 4 }
{
    if img.len() < 444 {
        return Err(Refusal::Short);
    }
    let mut disk_signature = [0; 4];
    units::inner::copy_out(&mut disk_signature, img, 440);
    Ok(disk_signature)
}

// Stores a disk signature over bytes 440 to 443 of an image: 2.
pub fn write_disk_signature(img: &mut [u8], disk_signature: &[u8; 4]) -> Result<usize, Refusal>
    ensures { Ends (bytes_stored img.old 440 disk_signature.now) (means result) img.new }
{
    inner::store_bytes(img, 440, disk_signature)
}
