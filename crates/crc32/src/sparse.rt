// The register after bytes with long runs of zero, as an entry array has them: it goes over a run by one product.
// No public calls: they have `requires`.
ghost use Rattle.std.specs.Prelude.{◌≡◌, true, ℕ, ◌+◌, ◌*◌, ◌≤◌, ◌<◌, length, replicate};
ghost use Rattle.units.specs.Bytes.{part, all_zero};
ghost use Rattle.crc32.specs.Crc.{feed};

use crate::powers::POWERS;
use crate::{carry, inner};

// The register x after n chunks of zero, of 128 bytes each.
fn past(x: u32, n: usize) -> u32
    requires { n ≤ 128 }
    ensures { result ≡ feed x (replicate (128 * n) 0) }
{
    if n == 0 {
        return x;
    }
    carry::carried(POWERS[n], x)
}

// How many chunks from a place on are zero, 128 at most. The first `from` of them are known to be; the others are looked at `step` at a time.
fn zero_run(s: &[u8], at: usize, from: usize, step: usize) -> usize
    requires le_step { (1 ≤ step) × (step ≤ 128) × (from ≤ 128) × (at + 128 * from ≤ length s.now) }
    requires from_value { all_zero (part s.now at (128 * from)) ≡ true }
    ensures { (result ≤ 128) × (at + 128 * result ≤ length s.now) × (all_zero (part s.now at (128 * result)) ≡ true) }
{
    let mut n = from;
    while n <= 128 - step {
        if s.len() - (at + 128 * n) < 128 * step {
            return n;
        }
        if !units::inner::all_zero(s, at + 128 * n, 128 * step) {
            return n;
        }
        n += step;
    }
    n
}

// The same by sixteen chunks at a time, and then one by one.
fn zero_chunks(s: &[u8], at: usize) -> usize
    requires { at ≤ length s.now }
    ensures { (result ≤ 128) × (at + 128 * result ≤ length s.now) × (all_zero (part s.now at (128 * result)) ≡ true) }
{
    let n = zero_run(s, at, 0, 16);
    zero_run(s, at, n, 1)
}

// Whether a run of zeros that is worth a product starts at a place: a guess, which no answer depends on. The first bytes of two chunks are looked at before all of them.
fn worth(s: &[u8], at: usize) -> bool
    requires { at ≤ length s.now }
{
    if s.len() - at < 256 {
        return false;
    }
    if !units::inner::all_zero(s, at, 16) {
        return false;
    }
    if !units::inner::all_zero(s, at + 128, 16) {
        return false;
    }
    units::inner::all_zero(s, at, 256)
}

// Where the bytes from a place on end that are fed as they are: a chunk on or more, where a run of zeros starts, or with s.
fn used_end(s: &[u8], at: usize) -> usize
    requires { at < length s.now }
    ensures { (at < result) × (result ≤ length s.now) }
{
    let mut k = at;
    while s.len() - k > 128 {
        k += 128;
        if worth(s, k) {
            return k;
        }
    }
    s.len()
}

// The register r after the bytes of s: some as they are and then the run of zeros behind them, again and again.
pub fn run(r: u32, s: &[u8]) -> u32
    ensures { result ≡ feed r s.now }
{
    let mut x = r;
    let mut i = 0;
    while i < s.len() {
        let e = used_end(s, i);
        let n = zero_chunks(s, e);
        x = past(inner::run(x, &s[i..e]), n);
        i = e + 128 * n;
    }
    x
}
