// What lay stores, once the image is known to have room: the protective MBR, and in each table an array of zeros and its header's block.
// `copy` is one table's own b + 16,384 bytes, as in `tables::inner`; `len` is the card's length in bytes.
ghost use Rattle.std.specs.Prelude.{◌≡◌, ◌+◌, ◌≤◌, ltb, length};
ghost use Rattle.std.proofs.lemmas.List.Edits.{sets};
ghost use Rattle.units.specs.Answer.{pick};
ghost use Rattle.units.specs.Guids.{guid_bytes};
ghost use Rattle.tables.specs.Lens.{side_of, copy_bytes};
ghost use Rattle.tables.specs.Entries.{zeros};
ghost use Rattle.tables.specs.Headers.{copy_of};
ghost use Rattle.tables.specs.Check.{room_check};
ghost use Rattle.card.specs.Calls.{mbr, laid_image};

use mbr::ProtectiveMbr;
use units::{BytePlace, Guid, Lba};

// The size of the protective record, for a backup in the last block.
fn record_size(last: Lba) -> u32
    ensures { result ≡ pick (ltb last.0 0xFFFFFFFF) last.0 0xFFFFFFFF }
{
    if last.0 < 0xFFFF_FFFF {
        last.0 as u32
    } else {
        0xFFFF_FFFF
    }
}

// The protective MBR over bytes 0 to 511, for a backup in the last block.
pub fn put_mbr(img: &mut [u8], last: Lba)
    requires { 512 ≤ length img.old }
    ensures { img.new ≡ sets img.old 0 (mbr last.0) }
{
    let m = ProtectiveMbr::with_lb_size(record_size(last));
    let _ = m.overwrite_lba0(img);
}

// Lays one copy: zeros over the array, and the header's block with the array's sum.
pub fn lay_copy(copy: &mut [u8], len: usize, b: u64, back: bool, guid: Guid)
    requires { ((room_check b len).number ≡ 0) × (length copy.old ≡ b + 16384) }
    ensures { copy.new ≡ copy_bytes (side_of back) (copy_of b len (side_of back) (guid_bytes guid) (zeros 16384)) }
{
    let array = tables::inner::array_in(b, back);
    units::inner::put_zeros(copy, array.0, 16384);
    let parts = tables::inner::array_sum(copy, b, back);
    tables::inner::put_header(copy, len, b, back, guid, parts);
}

// The same of the copy at a place of an image.
pub fn lay_at(s: &mut [u8], place: BytePlace, len: usize, b: u64, back: bool, guid: Guid)
    requires { ((room_check b len).number ≡ 0) × (place.0 + (b + 16384) ≤ length s.old) }
    ensures { s.new ≡ sets s.old place.0 (copy_bytes (side_of back) (copy_of b len (side_of back) (guid_bytes guid) (zeros 16384))) }
{
    let at = place.0;
    let size = b as usize;
    lay_copy(&mut s[at..at + (size + 16384)], len, b, back, guid);
}

// All that lay stores.
pub fn lay_card(img: &mut [u8], b: u64, guid: Guid)
    requires { (room_check b (length img.old)).number ≡ 0 }
    ensures { img.new ≡ laid_image b (length img.old) img.old (guid_bytes guid) }
{
    let len = img.len();
    let back = tables::inner::back_place(len, b);
    put_mbr(img, tables::inner::own_block(len, b, true));
    lay_at(img, back, len, b, true, guid);
    lay_at(img, BytePlace(b as usize), len, b, false, guid);
}
