// Callers that lend a builder to one setter each and return what stands there afterwards: what the by-value methods give.
ghost use Rattle.std.specs.Prelude.{◌≡◌};
ghost use Rattle.builder.specs.Building.{with_primary, with_disk_guid, with_backup_lba, with_first_usable, with_last_usable, with_num_parts, with_part_size};

use builder::HeaderBuilder;
use units::{Guid, Lba};

pub fn primary(mut h: HeaderBuilder, primary: bool) -> HeaderBuilder
    ensures { result ≡ with_primary h primary }
{
    h.primary(primary);
    h
}

pub fn disk_guid(mut h: HeaderBuilder, disk_guid: Guid) -> HeaderBuilder
    ensures { result ≡ with_disk_guid h disk_guid }
{
    h.disk_guid(disk_guid);
    h
}

pub fn backup_lba(mut h: HeaderBuilder, backup_lba: Lba) -> HeaderBuilder
    ensures { result ≡ with_backup_lba h backup_lba }
{
    h.backup_lba(backup_lba);
    h
}

pub fn first_usable(mut h: HeaderBuilder, first_usable: Lba) -> HeaderBuilder
    ensures { result ≡ with_first_usable h first_usable }
{
    h.first_usable(first_usable);
    h
}

pub fn last_usable(mut h: HeaderBuilder, last_usable: Lba) -> HeaderBuilder
    ensures { result ≡ with_last_usable h last_usable }
{
    h.last_usable(last_usable);
    h
}

pub fn num_parts(mut h: HeaderBuilder, num_parts: u32) -> HeaderBuilder
    ensures { result ≡ with_num_parts h num_parts }
{
    h.num_parts(num_parts);
    h
}

pub fn part_size(mut h: HeaderBuilder, part_size: u32) -> HeaderBuilder
    ensures { result ≡ with_part_size h part_size }
{
    h.part_size(part_size);
    h
}
