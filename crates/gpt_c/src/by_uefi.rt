// The second reading edition for C: tables of other makers, by UEFI (document 02, 9/13).
ghost use Rattle.std.specs.Prelude.{◌≡◌, ◌/◌, length};
ghost use Rattle.units.specs.Answer.{Ends};
ghost use Rattle.rows.specs.Plans.{roomed};
ghost use Rattle.rows.specs.RowBytes.{bytes_outcome};
ghost use Rattle.uefi.specs.Reading.{primary_by_uefi, backup_by_uefi};
ghost use Rattle.uefi.specs.Array.{counted, entries_by_uefi, after_by_uefi, entry_by_uefi, primary_entries, backup_entries};
ghost use Rattle.answers_c.specs.Crossing.{outcome_to_c, count_to_c, next_to_c, held_to_c};
ghost use Rattle.gpt_c.specs.Exports.{header_to_c};

use crate::headers::GptHeaderRead;
use answers_c::{GptCount, GptNext, GptSlotRead};
use header::Header;
use units::Slot;

// The primary header, in block 1: 1, 2, 4, 29, 5, 30, 31.
#[unsafe(no_mangle)]
pub extern "C" fn gpt_uefi_read_primary_header(img: &[u8], b: u64) -> GptHeaderRead
    ensures { result ≡ header_to_c (primary_by_uefi img.now b) }
{
    uefi::read_primary_header(img, b).into()
}

// The backup header, in the last whole block: 1, 8, 4, 29, 5, 30, 31.
#[unsafe(no_mangle)]
pub extern "C" fn gpt_uefi_read_backup_header(img: &[u8], b: u64) -> GptHeaderRead
    ensures { result ≡ header_to_c (backup_by_uefi img.now b) }
{
    uefi::read_backup_header(img, b).into()
}

// What a slot of the array that a header names holds: 1, 7, 3, 2, 6, 18.
#[unsafe(no_mangle)]
pub extern "C" fn gpt_uefi_read_partition(img: &[u8], h: Header, b: u64, slot: u32) -> GptSlotRead
    ensures { result ≡ held_to_c (entry_by_uefi img.now h b slot) }
{
    uefi::read_partition(img, h, b, Slot(slot)).into()
}

// How many entries of that array are used: 1, 7, 3, 2, 6.
#[unsafe(no_mangle)]
pub extern "C" fn gpt_uefi_count_partitions(img: &[u8], h: Header, b: u64) -> GptCount
    ensures { result ≡ count_to_c (counted (entries_by_uefi img.now h b)) }
{
    uefi::count_partitions(img, h, b).into()
}

// The first used slot of that array after a slot, where slot 0 stands before the first: 1, 7, 3, 2, 6.
#[unsafe(no_mangle)]
pub extern "C" fn gpt_uefi_next_partition(img: &[u8], h: Header, b: u64, after: u32) -> GptNext
    ensures { result ≡ next_to_c (after_by_uefi img.now h b after) }
{
    uefi::next_partition(img, h, b, Slot(after)).into()
}

// The used entries of that array into lent bytes, 136 bytes an entry, and how many there are: 1, 7, 3, 2, 6, 15 where there are fewer bytes.
#[unsafe(no_mangle)]
pub extern "C" fn gpt_uefi_file_read_partitions(
    img: &[u8],
    h: Header,
    b: u64,
    out: &mut [u8],
) -> GptCount
    ensures { Ends (outcome_to_c count_to_c (bytes_outcome (roomed (length out.old / 136) (entries_by_uefi img.now h b)) out.old)) result out.new }
{
    let p = uefi::inner::plan_for(img, h, b);
    let q = rows::inner::fill_bytes(img, p, out);
    q.answer().into()
}

// How many entries of the primary table are used, header and array in one: 1, 2, 4, 29, 5, 30, 31, 7, 3, 2, 6.
#[unsafe(no_mangle)]
pub extern "C" fn gpt_uefi_count_primary(img: &[u8], b: u64) -> GptCount
    ensures { result ≡ count_to_c (counted (primary_entries img.now b)) }
{
    uefi::count_primary(img, b).into()
}

// The same of the backup table: 1, 8, 4, 29, 5, 30, 31, 7, 3, 2, 6.
#[unsafe(no_mangle)]
pub extern "C" fn gpt_uefi_count_backup(img: &[u8], b: u64) -> GptCount
    ensures { result ≡ count_to_c (counted (backup_entries img.now b)) }
{
    uefi::count_backup(img, b).into()
}

// The used entries of the primary table into lent bytes, header and array in one: 1, 2, 4, 29, 5, 30, 31, 7, 3, 2, 6, 15.
#[unsafe(no_mangle)]
pub extern "C" fn gpt_uefi_list_primary(img: &[u8], b: u64, out: &mut [u8]) -> GptCount
    ensures { Ends (outcome_to_c count_to_c (bytes_outcome (roomed (length out.old / 136) (primary_entries img.now b)) out.old)) result out.new }
{
    let p = uefi::inner::plan_primary(img, b);
    let q = rows::inner::fill_bytes(img, p, out);
    q.answer().into()
}

// The same of the backup table: 1, 8, 4, 29, 5, 30, 31, 7, 3, 2, 6, 15.
#[unsafe(no_mangle)]
pub extern "C" fn gpt_uefi_list_backup(img: &[u8], b: u64, out: &mut [u8]) -> GptCount
    ensures { Ends (outcome_to_c count_to_c (bytes_outcome (roomed (length out.old / 136) (backup_entries img.now b)) out.old)) result out.new }
{
    let p = uefi::inner::plan_backup(img, b);
    let q = rows::inner::fill_bytes(img, p, out);
    q.answer().into()
}
