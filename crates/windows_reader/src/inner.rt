// Leaves for our own crates: each `requires` is what its caller has tested. No public calls.
// `head` and `tail` are two windows of a card of `blocks` blocks, as in `windows::inner`.
ghost use Rattle.std.specs.Prelude.{◌≡◌, ◌+◌, ◌*◌, ◌≤◌, length};
ghost use Rattle.rows.specs.Plans.{Made, planned};
ghost use Rattle.tables.specs.Lens.{side_of};
ghost use Rattle.windows.specs.Windows.{head_long, tail_long};
ghost use Rattle.windows_reader.specs.Parts.{array_of, array_from, ChosenIn, PlannedIn, part_entries};

use reader::inner::Choice;
use rows::inner::Plan;
use units::{BytePlace, Refusal};

// The table that the reader takes of two windows: the windows' own numbers, then 27 where neither passes.
pub fn choose_in<'a>(head: &'a [u8], tail: &'a [u8], blocks: u64, b: u64) -> Choice
    ensures { ChosenIn b blocks head.now tail.now result }
{
    let wrong = windows::inner::window_check(head.len(), tail.len(), blocks, b);
    if wrong != 0 {
        return Choice {
            number: wrong,
            back: false,
        };
    }
    let size = b as usize;
    let len = (blocks * b) as usize;
    reader::inner::choose_copy(&head[size..size + (size + 16384)], tail, len, b)
}

// The array in a window: in the head after block 0 and the header's block, in the tail from its start.
pub fn array_of<'a>(head: &'a [u8], tail: &'a [u8], b: u64, back: bool) -> &'a [u8]
    requires { (b ≤ 4096) × (length head.now ≡ head_long b) × (length tail.now ≡ tail_long b) }
    ensures result_value { result.now ≡ array_of b (side_of back) head.now tail.now }
    ensures ref_ptr_value { result.ref_ptr ≡ array_from b (side_of back) head.entry.ref_ptr tail.entry.ref_ptr }
{
    if back {
        return &tail[0..16384];
    }
    let from = (b + b) as usize;
    &head[from..from + 16384]
}

// The plan of the reader's list, over the part that `good_part` hands back.
pub fn plan_in<'a>(head: &'a [u8], tail: &'a [u8], blocks: u64, b: u64) -> Plan
    ensures { PlannedIn b blocks head.now tail.now result }
{
    let found = choose_in(head, tail, blocks, b);
    if found.number != 0 {
        return Plan::refused_plainly(found.refusal());
    }
    let back = found.back;
    Plan::listing(array_of(head, tail, b, back), BytePlace(0), 128)
}

// The plan of the list of a part: 2 where it is shorter than an array.
pub fn plan_of(part: &[u8]) -> Plan
    ensures { Made part.now result × (planned part.now result ≡ part_entries part.now) }
{
    if part.len() < 16384 {
        return Plan::refused_plainly(Refusal::Short);
    }
    Plan::listing(part, BytePlace(0), 128)
}
