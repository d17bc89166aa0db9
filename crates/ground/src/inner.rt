// Leaves for our own crates: each `requires` is what its caller has tested. No public calls.
// `copy` is the front table's own b + 16,384 bytes, as in `tables::inner`, with its array at `array`; `len` is the card's length in bytes.
ghost use Rattle.std.specs.Prelude.{◌≡◌, map, ◌+◌, ◌≤◌, length};
ghost use Rattle.std.proofs.lemmas.List.Edits.{sets};
ghost use Rattle.units.specs.Bytes.{part};
ghost use Rattle.units.specs.Meanings.{card_means};
ghost use Rattle.ground.specs.Ground.{Run};
ghost use Rattle.ground.specs.Search.{Checked, At, Nearest, Next, nearer_of, front_runs};
ghost use Rattle.ground.specs.Answers.{rows_check, rows_outcome, RowsEnd, run_count_of};

use units::why::Why;
use units::{BytePlace, Lba, Place, Reason, Slot, why};

// The blocks of a used entry. Where there is none: the block after the last usable one, and the last usable one.
#[derive(Clone, Copy, Debug, PartialEq, Eq)]
struct Span {
    first: Lba,
    last: Lba,
}

// A run, and the block from which the search goes on. No blocks: there are no more runs.
#[derive(Clone, Copy, Debug, PartialEq, Eq)]
struct Gap {
    start: Lba,
    blocks: u64,
    after: Lba,
}

// The refusal where a row has no room.
const NO_ROOM: Why = Why {
    number: 15,
    slot: Slot(0),
    place: Place::Nowhere,
};

// The entry at a place, if it is used and starts at block x or after it and before the best one so far.
fn nearer(copy: &[u8], own: BytePlace, x: Lba, best: Span) -> Span
    requires { own.0 + 128 ≤ length copy.now }
    ensures { result ≡ nearer_of (part copy.now own.0 128) x.0 best }
{
    let first = partition::inner::first_at(copy, own);
    if first.0 < x.0 {
        return best;
    }
    if best.first.0 <= first.0 {
        return best;
    }
    if partition::inner::nil_type_at(copy, own) {
        return best;
    }
    let last = partition::inner::last_at(copy, own);
    Span { first, last }
}

// The used entry with the lowest first block that is x or after it.
fn nearest(copy: &[u8], array: BytePlace, x: Lba, none: Span) -> Span
    requires { array.0 + 16384 ≤ length copy.now }
    ensures { Nearest (part copy.now array.0 16384) 128 x.0 none result }
{
    let mut best = none;
    for k in 0..128 {
        best = nearer(copy, partition::inner::entry_place(array, k), x, best);
    }
    best
}

// The first run from block x on.
fn next_run(copy: &[u8], array: BytePlace, len: usize, b: u64, x: Lba) -> Gap
    requires checked { Checked b len copy.now array.0 }
    requires at { At b len (part copy.now array.0 16384) x.0 }
    ensures { Next b len (part copy.now array.0 16384) x.0 result }
{
    let last = tables::inner::last_usable(len, b);
    let none = Span {
        first: Lba(last.0 + 1),
        last,
    };
    let mut from = x;
    // By `while`: each step jumps over a whole span, so there is no range to go through.
    while from.0 <= last.0 {
        let s = nearest(copy, array, from, none);
        if from.0 < s.first.0 {
            return Gap {
                start: from,
                blocks: s.first.0 - from.0,
                after: Lba(s.last.0 + 1),
            };
        }
        from = Lba(s.last.0 + 1);
    }
    Gap {
        start: from,
        blocks: 0,
        after: from,
    }
}

// How many runs there are.
fn count_runs(copy: &[u8], len: usize, b: u64) -> u32
    requires { Checked b len copy.now b }
    ensures { result ≡ length (front_runs b len copy.now) }
{
    let array = tables::inner::array_in(b, false);
    let mut n = 0u32;
    let mut g = next_run(copy, array, len, b, tables::inner::first_usable(b));
    // By `while`: each search begins past the run before it, so it jumps over spans too.
    while g.blocks != 0 {
        n += 1;
        g = next_run(copy, array, len, b, g.after);
    }
    n
}

// 15 (no room) where either row is shorter than the count.
fn rows_check(n: u32, starts: usize, lengths: usize) -> Why
    ensures { result ≡ rows_check starts lengths n }
{
    let count = n as usize;
    if (starts < count) | (lengths < count) {
        return NO_ROOM;
    }
    why::FINE
}

// The runs, of which there are n, into the first places of both rows.
fn fill(copy: &[u8], len: usize, b: u64, n: u32, starts: &mut [u64], lengths: &mut [u64])
    requires checked { Checked b len copy.now b }
    requires n_value { n ≡ length (front_runs b len copy.now) }
    requires n_in_bounds { (n ≤ length starts.old) × (n ≤ length lengths.old) }
    ensures starts_after { starts.new ≡ sets starts.old 0 (map (λ (r : Run). r.start) (front_runs b len copy.now)) }
    ensures lengths_after { lengths.new ≡ sets lengths.old 0 (map (λ (r : Run). r.blocks) (front_runs b len copy.now)) }
{
    let array = tables::inner::array_in(b, false);
    let mut x = tables::inner::first_usable(b);
    for i in 0..n as usize {
        let g = next_run(copy, array, len, b, x);
        starts[i] = g.start.0;
        lengths[i] = g.blocks;
        x = g.after;
    }
}

// All runs of a card that was checked, into two rows: 15 if either row is shorter than the count.
pub fn runs_into(
    copy: &[u8],
    len: usize,
    b: u64,
    starts: &mut [u64],
    lengths: &mut [u64],
) -> Result<u32, Reason>
    requires { Checked b len copy.now b }
    ensures { RowsEnd (rows_outcome (front_runs b len copy.now) starts.old lengths.old) (card_means result) starts.new lengths.new }
{
    let n = count_runs(copy, len, b);
    let found = rows_check(n, starts.len(), lengths.len());
    if found.number != 0 {
        return answer(found, 0);
    }
    fill(copy, len, b, n, starts, lengths);
    Ok(n)
}

// The answer by its name: a refusal, or a count where nothing refuses.
pub fn answer(found: Why, count: u32) -> Result<u32, Reason>
    ensures { result ≡ run_count_of found count }
{
    let n = found.number;
    if n == 0 {
        return Ok(count);
    }
    Err(found.reason())
}
