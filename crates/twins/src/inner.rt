// Leaves for our own crates: each `requires` is what its caller has tested. No public calls.
// `copy` is one table's own b + 16,384 bytes, as in `tables::inner`; `at` is where the array stands in it, `own` where one entry stands, and g the sixteen bytes of a GUID.
// m is a set of numbers below 4096, 64 words of 64 bits (specs/Marks). An entry whose number is not in the set of those before it is compared with none of them.
ghost use Rattle.std.specs.Prelude.{◌≡◌, not, ℕ, ◌+◌, ◌*◌, ◌/◌, ◌%◌, ◌^◌, ◌≤◌, ◌<◌, eqb, length};
ghost use Rattle.std.specs.Int.Bits.{bit_or};
ghost use Rattle.units.specs.Bytes.{part};
ghost use Rattle.tables.specs.Checks.{all};
ghost use Rattle.tables.specs.Entries.{entry, part_guid_of, bears, twins, all_single, first_twin};
ghost use Rattle.twins.specs.Marks.{mark, marked, with_mark, fresh, entered, Marked};

use units::BytePlace;
use units::inner::Field;

// A number below 4096 by the partition GUID of the entry at a place: the same GUID gives the same number.
fn mark(copy: &[u8], own: BytePlace) -> usize
    requires { own.0 + 128 ≤ length copy.now }
    ensures { result ≡ mark (part_guid_of (part copy.now own.0 128)) }
{
    let guid = partition::inner::guid_place(own);
    let w = u64::get(copy, guid.0) ^ u64::get(copy, guid.0 + 8);
    let v = w
        ^ (w / 4096)
        ^ (w / 16777216)
        ^ (w / 68719476736)
        ^ (w / 281474976710656)
        ^ (w / 1152921504606846976);
    (v % 4096) as usize
}

// Bit k of x, and x with that bit.
fn has_bit(x: u64, k: u64) -> bool
    requires { k < 64 }
    ensures { result ≡ eqb (x / 2 ^ k % 2) 1 }
{
    (x >> k) % 2 == 1
}

fn with_bit(x: u64, k: u64) -> u64
    requires { k < 64 }
    ensures { result ≡ bit_or x (2 ^ k) }
{
    x | (1u64 << k)
}

// Whether h is in the set; from then on it is.
fn enter(m: &mut [u64], h: usize) -> bool
    requires { (length m.old ≡ 64) × (h < 4096) }
    ensures { (result ≡ marked m.old h) × (m.new ≡ with_mark m.old h) }
{
    let w = m[h / 64];
    let k = (h % 64) as u64;
    m[h / 64] = with_bit(w, k);
    has_bit(w, k)
}

// Whether the entry at a place is unused, or of a number that was not in the set; a used one's is in it from then on.
fn fresh(copy: &[u8], own: BytePlace, m: &mut [u64]) -> bool
    requires { (length m.old ≡ 64) × (own.0 + 128 ≤ length copy.now) }
    ensures value { result ≡ fresh m.old (part copy.now own.0 128) }
    ensures m_after { m.new ≡ entered m.old (part copy.now own.0 128) }
{
    if partition::inner::nil_type_at(copy, own) {
        return true;
    }
    let h = mark(copy, own);
    !enter(m, h)
}

// Whether the entry at a place is used and has the GUID g. The GUID is compared first: it seldom is the same.
fn bears(copy: &[u8], own: BytePlace, g: &[u8]) -> bool
    requires { (own.0 + 128 ≤ length copy.now) × (length g.now ≡ 16) }
    ensures { result ≡ bears g.now (part copy.now own.0 128) }
{
    let guid = partition::inner::guid_place(own);
    if !units::inner::same_at(copy, guid.0, g) {
        return false;
    }
    !partition::inner::nil_type_at(copy, own)
}

// Whether no entry before entry k is used and has the GUID g.
fn none_below(copy: &[u8], at: BytePlace, k: usize, g: &[u8]) -> bool
    requires { (at.0 + 16384 ≤ length copy.now) × (k < 128) × (length g.now ≡ 16) }
    ensures { result ≡ all k (λ (j : ℕ). not (bears g.now (entry (part copy.now at.0 16384) j))) }
{
    for j in 0..k {
        if bears(copy, partition::inner::entry_place(at, j), g) {
            return false;
        }
    }
    true
}

// Whether entry k is no twin of an entry before it.
fn single_below(copy: &[u8], at: BytePlace, k: usize) -> bool
    requires { (at.0 + 16384 ≤ length copy.now) × (k < 128) }
    ensures { result ≡ all k (λ (j : ℕ). not (twins (entry (part copy.now at.0 16384) k) (entry (part copy.now at.0 16384) j))) }
{
    let own = partition::inner::entry_place(at, k);
    if partition::inner::nil_type_at(copy, own) {
        return true;
    }
    let guid = partition::inner::guid_place(own);
    let from = guid.0;
    none_below(copy, at, k, &copy[from..from + 16])
}

// The same, where the numbers of all used entries before entry k are in the set. Its own is in it from then on.
fn single_from(copy: &[u8], at: BytePlace, k: usize, m: &mut [u64]) -> bool
    requires at_in_bounds { (at.0 + 16384 ≤ length copy.now) × (k < 128) × (length m.old ≡ 64) }
    requires marked { Marked (part copy.now at.0 16384) k m.old }
    ensures value { result ≡ all k (λ (j : ℕ). not (twins (entry (part copy.now at.0 16384) k) (entry (part copy.now at.0 16384) j))) }
    ensures marked_2 { Marked (part copy.now at.0 16384) (k + 1) m.new × (length m.new ≡ 64) }
{
    let own = partition::inner::entry_place(at, k);
    if fresh(copy, own, m) {
        return true;
    }
    single_below(copy, at, k)
}

// Whether no two entries of the array at a place are twins.
pub fn all_single(copy: &[u8], at: BytePlace) -> bool
    requires { at.0 + 16384 ≤ length copy.now }
    ensures { result ≡ all_single (part copy.now at.0 16384) }
{
    let mut m = [0u64; 64];
    for k in 0..128 {
        if !single_from(copy, at, k, &mut m) {
            return false;
        }
    }
    true
}

// Array place of the lowest used entry other than k that has the GUID g, in the array at a place; 128 if there is none.
pub fn first_twin(copy: &[u8], at: BytePlace, k: u32, g: &[u8]) -> u32
    requires { (at.0 + 16384 ≤ length copy.now) × (length g.now ≡ 16) }
    ensures { result ≡ first_twin (part copy.now at.0 16384) k g.now }
{
    for j in 0..128 {
        let own = partition::inner::entry_place(at, j as usize);
        let met = bears(copy, own, g);
        // `&&` was tried: a second branch makes it slower by a sixth.
        if (j != k) & met {
            return j;
        }
    }
    128
}
