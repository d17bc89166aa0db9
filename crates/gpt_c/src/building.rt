// The header builder for C: its settings in a struct, the header out.
ghost use Rattle.std.specs.Prelude.{◌≡◌};
ghost use Rattle.builder.specs.Building.{of_header, built};
ghost use Rattle.gpt_c.specs.Exports.{header_to_c, new_settings, builder_of};

use crate::headers::GptHeaderRead;
use builder::HeaderBuilder;
use header::Header;
use units::{Guid, Lba};

// What a builder can be told. The header is a primary one or a backup.
#[repr(C)]
#[derive(Clone, Copy, Debug, PartialEq, Eq)]
pub struct GptSettings {
    pub disk_guid: Guid,
    pub backup_lba: Lba,
    pub first_usable: Lba,
    pub last_usable: Lba,
    pub num_parts: u32,
    pub part_size: u32,
    pub primary: bool,
}

// A new builder with every setting made.
#[tactic(auto, unfolding(crate::specs::Exports::builder_of))]
fn builder_of(s: GptSettings) -> HeaderBuilder
    ensures { result ≡ builder_of s }
{
    HeaderBuilder::new(s.disk_guid)
        .with_backup_lba(s.backup_lba)
        .with_first_usable(s.first_usable)
        .with_last_usable(s.last_usable)
        .with_num_parts(s.num_parts)
        .with_part_size(s.part_size)
        .with_primary(s.primary)
}

// The settings of a new builder: a primary header at block 1 with 128 entries of 128 bytes, the backup not set.
#[unsafe(no_mangle)]
pub extern "C" fn gpt_settings_new(guid: Guid) -> GptSettings
    ensures { result ≡ new_settings guid }
{
    GptSettings {
        disk_guid: guid,
        backup_lba: Lba(0),
        first_usable: Lba(0),
        last_usable: Lba(0),
        num_parts: 128,
        part_size: 128,
        primary: true,
    }
}

// The header that a new builder gives after these settings; fewer than 128 entries become 128: 1, 9, 3, 10, 10, 3.
#[unsafe(no_mangle)]
pub extern "C" fn gpt_build(s: GptSettings, b: u64) -> GptHeaderRead
    ensures { result ≡ header_to_c (built (builder_of s) b) }
{
    builder_of(s).build(b).into()
}

// The header that a builder copied from a header gives; its entry count stays: 1, 9, 3, 10, 10, 3.
#[unsafe(no_mangle)]
pub extern "C" fn gpt_build_from_header(h: Header, b: u64) -> GptHeaderRead
    ensures { result ≡ header_to_c (built (of_header h) b) }
{
    HeaderBuilder::from_header(h).build(b).into()
}
