// The header builder: set by value or where it stands, and the header that it builds.
#![tactic(auto)]

pub mod lending; // lending.rt: what every lent setter and every caller of one promise

ghost use Rattle.units.specs.Meanings.{means};
ghost use Rattle.std.specs.Prelude.{◌≡◌, ◌+◌, ◌<◌, ◌≤◌, ◌^◌};
ghost use Rattle.builder.specs.Building.{new_builder, of_header, built, greater, blocks_for, sides_of, before_array, header_of};
ghost use Rattle.builder.specs.Building.{with_primary, with_disk_guid, with_backup_lba, with_first_usable, with_last_usable, with_num_parts, with_part_size};

use header::{Header, Revision};
use units::{Guid, Lba, Refusal};

// What a header is built from. An entry count or size that is never set is 128, a backup that is never set is 0.
#[derive(Clone, Copy)]
pub struct HeaderBuilder {
    primary: bool,
    disk_guid: Guid,
    primary_lba: Lba,
    backup_lba: Lba,
    first_usable: Lba,
    last_usable: Lba,
    num_parts: u32,
    part_size: u32,
}

fn greater_of(x: u64, y: u64) -> u64
    ensures { result ≡ greater x y }
{
    if x < y { y } else { x }
}

// How many blocks of b bytes n bytes take.
fn blocks_for(n: u64, b: u64) -> u64
    requires { (n < 2 ^ 32) × (0 < b) × (b ≤ 4096) }
    ensures { (result ≡ blocks_for n b) × (result ≤ n) }
{
    (n + (b - 1)) / b
}

// A header's fields under the two blocks in their order.
fn sides(h: Header, primary: bool, primary_lba: Lba, backup_lba: Lba) -> HeaderBuilder
    ensures { result ≡ sides_of h primary primary_lba backup_lba }
{
    let disk_guid = h.disk_guid;
    let first_usable = h.first_usable;
    let last_usable = h.last_usable;
    HeaderBuilder {
        primary,
        disk_guid,
        primary_lba,
        backup_lba,
        first_usable,
        last_usable,
        num_parts: h.num_parts,
        part_size: h.part_size,
    }
}

// The array follows the primary header, or the last usable block.
fn block_before_array(s: HeaderBuilder, last: u64) -> u64
    ensures { result ≡ before_array s last }
{
    if s.primary { s.primary_lba.0 } else { last }
}

// A fresh header: revision 1.0, 92 bytes, sums and reserved 0.
fn header_of(s: HeaderBuilder, first: u64, last: u64, start: u64) -> Header
    ensures { result ≡ header_of s first last start }
{
    let disk_guid = s.disk_guid;
    let mut current_lba = s.primary_lba;
    let mut backup_lba = s.backup_lba;
    if !s.primary {
        current_lba = s.backup_lba;
        backup_lba = s.primary_lba;
    }
    Header {
        revision: Revision(1, 0),
        header_size_le: 92,
        crc32: 0,
        reserved: 0,
        current_lba,
        backup_lba,
        first_usable: Lba(first),
        last_usable: Lba(last),
        disk_guid,
        part_start: Lba(start),
        num_parts: s.num_parts,
        part_size: s.part_size,
        crc32_parts: 0,
    }
}

impl HeaderBuilder {
    // A builder of a primary header at block 1, with the given disk GUID.
    pub fn new(disk_guid: Guid) -> HeaderBuilder
        ensures { result ≡ new_builder disk_guid }
    {
        HeaderBuilder {
            primary: true,
            disk_guid,
            primary_lba: Lba(1),
            backup_lba: Lba(0),
            first_usable: Lba(0),
            last_usable: Lba(0),
            num_parts: 128,
            part_size: 128,
        }
    }

    // A builder with what a header says. It is a primary one where its own block comes before the other; the entry count stays as it is.
    pub fn from_header(h: Header) -> HeaderBuilder
        ensures { result ≡ of_header h }
    {
        let current = h.current_lba;
        let backup = h.backup_lba;
        if current.0 < backup.0 {
            sides(h, true, current, backup)
        } else {
            sides(h, false, backup, current)
        }
    }

    pub fn with_primary(mut self, primary: bool) -> HeaderBuilder
        ensures { result ≡ with_primary self primary }
    {
        self.primary = primary;
        self
    }

    pub fn with_disk_guid(mut self, disk_guid: Guid) -> HeaderBuilder
        ensures { result ≡ with_disk_guid self disk_guid }
    {
        self.disk_guid = disk_guid;
        self
    }

    pub fn with_backup_lba(mut self, backup_lba: Lba) -> HeaderBuilder
        ensures { result ≡ with_backup_lba self backup_lba }
    {
        self.backup_lba = backup_lba;
        self
    }

    pub fn with_first_usable(mut self, first_usable: Lba) -> HeaderBuilder
        ensures { result ≡ with_first_usable self first_usable }
    {
        self.first_usable = first_usable;
        self
    }

    pub fn with_last_usable(mut self, last_usable: Lba) -> HeaderBuilder
        ensures { result ≡ with_last_usable self last_usable }
    {
        self.last_usable = last_usable;
        self
    }

    // Fewer than 128 entries become 128.
    pub fn with_num_parts(mut self, num_parts: u32) -> HeaderBuilder
        ensures { result ≡ with_num_parts self num_parts }
    {
        if num_parts < 128 {
            self.num_parts = 128;
        } else {
            self.num_parts = num_parts;
        }
        self
    }

    pub fn with_part_size(mut self, part_size: u32) -> HeaderBuilder
        ensures { result ≡ with_part_size self part_size }
    {
        self.part_size = part_size;
        self
    }

    // This and the six below change the caller's builder where it stands, to what the `with_..` method of the same name gives.
    pub fn primary(&mut self, primary: bool)
        ensures { self.new ≡ with_primary self.old primary }
    {
        let h = *self;
        *self = h.with_primary(primary);
    }

    pub fn disk_guid(&mut self, disk_guid: Guid)
        ensures { self.new ≡ with_disk_guid self.old disk_guid }
    {
        let h = *self;
        *self = h.with_disk_guid(disk_guid);
    }

    pub fn backup_lba(&mut self, backup_lba: Lba)
        ensures { self.new ≡ with_backup_lba self.old backup_lba }
    {
        let h = *self;
        *self = h.with_backup_lba(backup_lba);
    }

    pub fn first_usable(&mut self, first_usable: Lba)
        ensures { self.new ≡ with_first_usable self.old first_usable }
    {
        let h = *self;
        *self = h.with_first_usable(first_usable);
    }

    pub fn last_usable(&mut self, last_usable: Lba)
        ensures { self.new ≡ with_last_usable self.old last_usable }
    {
        let h = *self;
        *self = h.with_last_usable(last_usable);
    }

    // Fewer than 128 entries become 128.
    pub fn num_parts(&mut self, num_parts: u32)
        ensures { self.new ≡ with_num_parts self.old num_parts }
    {
        let h = *self;
        *self = h.with_num_parts(num_parts);
    }

    pub fn part_size(&mut self, part_size: u32)
        ensures { self.new ≡ with_part_size self.old part_size }
    {
        let h = *self;
        *self = h.with_part_size(part_size);
    }

    // The header that the builder stands for: 1, 9, 3, 10, 10, 3.
    pub fn build(self, b: u64) -> Result<Header, Refusal>
        ensures { means result ≡ built self b }
    {
        if !units::good_block_size(b) {
            return Err(Refusal::BadBlockSize);
        }
        let backup = self.backup_lba.0;
        if backup < self.primary_lba.0 {
            return Err(Refusal::MissingBackupLba);
        }
        let bytes = self.num_parts as u64 * self.part_size as u64;
        if 0xFFFF_FFFF < bytes {
            return Err(Refusal::Overflow);
        }
        let p = blocks_for(bytes, b);
        if backup < p + 1 {
            return Err(Refusal::BackupLbaToEarly);
        }
        let first = greater_of(self.first_usable.0, 2 + p);
        let last = greater_of(self.last_usable.0, backup - p - 1);
        if last < first {
            return Err(Refusal::BackupLbaToEarly);
        }
        let before = block_before_array(self, last);
        if before == 0xFFFF_FFFF_FFFF_FFFF {
            return Err(Refusal::Overflow);
        }
        Ok(header_of(self, first, last, before + 1))
    }
}
