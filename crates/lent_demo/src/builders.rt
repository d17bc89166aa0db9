// Builds headers of document 01's cases at the edges with a builder that is lent to each of its setters, and prints what is built.
ghost use Rattle.std.specs.Prelude.{Some};
ghost use Rattle.lent_demo.specs.Texts.{built_text};

use crate::lent;
use builder::HeaderBuilder;
use console::Output;
use header::Header;
use std::io::Write;
use std::{fmt, io};
use units::{Guid, Lba, Tail};

// The fields of a header that a builder sets, as a line shows them.
#[derive(Clone, Copy)]
struct Built(Header);

impl fmt::Display for Built {
    ghost output = { λ built. Some (built_text built.0) };

    fn fmt<W: fmt::Write>(&self, f: &mut fmt::Formatter<W>) -> fmt::Result {
        let h = self.0;
        let (current, backup, start) = (h.current_lba.0, h.backup_lba.0, h.part_start.0);
        let (first, last, disk) = (h.first_usable.0, h.last_usable.0, h.disk_guid.time_low);
        let (entries, size) = (h.num_parts, h.part_size);
        write!(
            f,
            "current {current}, backup {backup}, usable {first} to {last}"
        )?;
        write!(
            f,
            ", array at {start}, entries {entries} of {size}, disk {disk}"
        )
    }
}

fn show_built(
    case: &str,
    s: HeaderBuilder,
    b: u64,
    out: &mut Output<impl Write>,
) -> io::Result<()> {
    match s.build(b) {
        Err(w) => writeln!(out, "{case} refused {}", w.number()),
        Ok(h) => writeln!(out, "{case} {}", Built(h)),
    }
}

// A builder of disk 7 with a backup block, both set.
fn with_backup(lba: u64) -> HeaderBuilder {
    let disk = Guid {
        time_low: 7,
        time_mid: 0,
        time_high: 0,
        tail: Tail(0, 0, 0, 0, 0, 0, 0, 0),
    };
    lent::backup_lba(
        lent::disk_guid(HeaderBuilder::new(Guid::nil()), disk),
        Lba(lba),
    )
}

pub fn show(out: &mut Output<impl Write>) -> io::Result<()> {
    let p1 = with_backup(67);
    show_built("P1", p1, 512, out)?;
    show_built("P1 backup", lent::primary(p1, false), 512, out)?;
    let p3 = with_backup(11);
    show_built("P3", p3, 4096, out)?;
    show_built("P3 backup", lent::primary(p3, false), 4096, out)?;
    let far = lent::last_usable(p1, Lba(100));
    show_built("P7", far, 512, out)?;
    show_built("P7 backup", lent::primary(far, false), 512, out)?;
    show_built("P8", lent::num_parts(p1, 4), 512, out)?;
    show_built("P9", lent::num_parts(with_backup(69), 129), 512, out)?;
    show_built("P10", lent::part_size(p1, 33554432), 512, out)?;
    show_built("P10", lent::part_size(p1, 33554431), 512, out)?;
    let late = lent::first_usable(with_backup(100), Lba(40));
    show_built("first usable set", late, 512, out)
}
