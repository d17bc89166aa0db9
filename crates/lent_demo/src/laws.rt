// Three laws over what is lent, each at one call: what the law tells of it is what the function that is written out promises.
ghost use Rattle.units.specs.Meanings.{means};
ghost use Rattle.std.specs.Prelude.{◌≡◌, length};
ghost use Rattle.builder.specs.Building.{with_backup_lba};
ghost use Rattle.rows.specs.Row.{partitions_read, row_outcome, RowEnds};

use builder::HeaderBuilder;
use builder::lending::{lends, sets};
use header::Header;
use rows::Entry;
use rows::inner::{meets, plan_for};
use units::{Lba, Refusal};

// A lent setter over a by-value method.
pub fn set_backup_lba(h: &mut HeaderBuilder, backup_lba: Lba)
    ensures { h.new ≡ with_backup_lba h.old backup_lba }
{
    sets(h, backup_lba, HeaderBuilder::with_backup_lba);
}

// A caller that lends a builder to a setter and returns what stands there.
pub fn backup_lba(h: HeaderBuilder, backup_lba: Lba) -> HeaderBuilder
    ensures { result ≡ with_backup_lba h backup_lba }
{
    lends(h, |at| at.backup_lba(backup_lba))
}

// A reading into a lent row.
pub fn file_read_partitions(
    img: &[u8],
    h: Header,
    b: u64,
    row: &mut [Entry],
) -> Result<u32, Refusal>
    ensures { RowEnds (row_outcome (partitions_read img.now h b (length row.old)) row.old) (means result) row.new }
{
    meets(img, row, |img| plan_for(img, h, b), |q| q.answer())
}
