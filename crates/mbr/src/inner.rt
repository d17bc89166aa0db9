// Leaves for our own crates: each `requires` is a range that its caller has tested. No public calls.
ghost use Rattle.std.specs.Prelude.{◌≡◌, List, ◌+◌, ◌≤◌, length};
ghost use Rattle.std.proofs.lemmas.List.Edits.{sets};
ghost use Rattle.units.specs.Answer.{Ends};
ghost use Rattle.units.specs.Bytes.{part};
ghost use Rattle.units.specs.Meanings.{means};
ghost use Rattle.mbr.specs.Format.{record_at, record_bytes, records_bytes, tail_bytes, mbr_at};
ghost use Rattle.mbr.specs.Storing.{bytes_stored};

use crate::{PartRecord, ProtectiveMbr};
use units::inner::Field;
use units::{BytePlace, Refusal};

// The record in the 16 bytes at place at.
pub fn record_at(s: &[u8], at: usize) -> PartRecord
    requires { at + 16 ≤ length s.now }
    ensures { result ≡ record_at s.now at }
{
    PartRecord {
        boot_indicator: s[at],
        start_head: s[at + 1],
        start_sector: s[at + 2],
        start_track: s[at + 3],
        os_type: s[at + 4],
        end_head: s[at + 5],
        end_sector: s[at + 6],
        end_track: s[at + 7],
        lb_start: u32::get(s, at + 8),
        lb_size: u32::get(s, at + 12),
    }
}

// The record's 16 bytes, stored at place at.
pub fn put_record(s: &mut [u8], at: usize, p: PartRecord)
    requires { at + 16 ≤ length s.old }
    ensures { s.new ≡ sets s.old at (record_bytes p) }
{
    let b = [
        p.boot_indicator,
        p.start_head,
        p.start_sector,
        p.start_track,
        p.os_type,
        p.end_head,
        p.end_sector,
        p.end_track,
    ];
    units::inner::put_bytes(s, at, &b);
    p.lb_start.put(s, at + 8);
    p.lb_size.put(s, at + 12);
}

// All of src, stored at place at: 2.
pub fn store_bytes(s: &mut [u8], at: usize, src: &[u8]) -> Result<usize, Refusal>
    ensures { Ends (bytes_stored s.old at src.now) (means result) s.new }
{
    let n = src.len();
    if !units::is_inside(s.len(), BytePlace(at), n) {
        return Err(Refusal::Short);
    }
    units::inner::put_bytes(s, at, src);
    Ok(n)
}

fn put_records(s: &mut [u8], at: usize, records: [PartRecord; 4])
    requires { at + 64 ≤ length s.old }
    ensures { s.new ≡ sets s.old at (records_bytes records) }
{
    for (i, p) in records.iter().enumerate() {
        put_record(s, at + 16 * i, *p);
    }
}

// The four records and 55 AA.
pub fn put_tail(s: &mut [u8], at: usize, records: [PartRecord; 4])
    requires { at + 66 ≤ length s.old }
    ensures { s.new ≡ sets s.old at (tail_bytes records) }
{
    put_records(s, at, records);
    units::inner::put_bytes(s, at + 64, b"\x55\xAA");
}

// The MBR in the 512 bytes at place at, whatever its bytes 510 and 511 are.
pub fn mbr_at(s: &[u8], at: usize) -> ProtectiveMbr
    requires { at + 512 ≤ length s.now }
    ensures { result ≡ mbr_at s.now at }
{
    let mut bootcode = [0; 440];
    units::inner::copy_out(&mut bootcode, s, at);
    let mut disk_signature = [0; 4];
    units::inner::copy_out(&mut disk_signature, s, at + 440);
    let unknown = u16::get(s, at + 444);
    let partitions = [
        record_at(s, at + 446),
        record_at(s, at + 462),
        record_at(s, at + 478),
        record_at(s, at + 494),
    ];
    ProtectiveMbr {
        bootcode,
        disk_signature,
        unknown,
        partitions,
    }
}
