// Leaves for our own crates: each `requires` is a range that its caller has tested. No public calls.
ghost use Rattle.std.specs.Prelude.{◌≡◌, ℕ, ◌+◌, ◌*◌, ◌-◌, ◌^◌, ◌≤◌, ◌<◌, length, replicate};
ghost use Rattle.std.proofs.lemmas.List.Edits.{sets};
ghost use Rattle.units.specs.Bytes.{part, num, bytes, total, laid, same, all_zero};
ghost use Rattle.units.specs.Numbers.{width_of, bytes_in};
ghost use Rattle.units.specs.Guids.{tail_at, tail_bytes, guid_at, guid_bytes};

use crate::{BytePlace, Guid, Lba, Number, Slot, Tail, Width};

// Where a block starts, in blocks of b bytes: the one way from a block to a byte place.
pub fn place(block: Lba, b: u64) -> BytePlace
    requires { block.0 * b < 2 ^ 64 }
    ensures { result ≡ record { 0 = block.0 * b } }
{
    BytePlace((block.0 * b) as usize)
}

// The array place of a slot, and the slot of an array place: the one way from either to the other. Slot 0, which is nobody's, is read as slot 1, so that a place is always one of the array.
pub fn array_place(slot: Slot) -> u32
    ensures { result ≡ slot.0 - 1 }
{
    slot.0.saturating_sub(1)
}

pub fn slot_at(place: u32) -> Slot
    requires { place < 0xFFFFFFFF }
    ensures { result ≡ record { 0 = place + 1 } }
{
    Slot(place + 1)
}

impl Width {
    // The bytes of a width.
    pub fn bytes(self) -> usize
        ensures { (result ≡ width_of self) × (result ≤ 8) }
    {
        match self {
            Width::Two => 2,
            Width::Four => 4,
            Width::Eight => 8,
        }
    }
}

impl Number {
    // The bytes that a number takes.
    pub fn bytes(self) -> usize
        ensures { (result ≡ bytes_in self) × (result ≤ 8) }
    {
        match self {
            Number::Two(_) => 2,
            Number::Four(_) => 4,
            Number::Eight(_) => 8,
        }
    }
}

// The N bytes at place at, by value.
pub fn array_at<const N: usize>(s: &[u8], at: usize) -> [u8; N]
    requires { at + N ≤ length s.now }
    ensures { result ≡ part s.now at N }
{
    let mut out = [0; N];
    out.copy_from_slice(&s[at..at + N]);
    out
}

// A number that stands in bytes, least byte first.
pub trait Field: Copy {
    ghost width: { ℕ };

    ghost value: { Self → ℕ };

    fn get(s: &[u8], at: usize) -> Self
        requires { at + width ≤ length s.now }
        ensures { value result ≡ num s.now at width };

    fn put(self, s: &mut [u8], at: usize)
        requires { at + width ≤ length s.old }
        ensures { s.new ≡ sets s.old at (bytes width (value self)) };
}

impl Field for u16 {
    ghost width = { 2 };

    ghost value = { λ x. x };

    #[tactic(auto, unfolding(crate::specs::Bytes::num, crate::specs::Bytes::le))]
    fn get(s: &[u8], at: usize) -> u16 {
        u16::from_le_bytes(array_at(s, at))
    }

    #[tactic(auto, unfolding(crate::specs::Bytes::bytes))]
    fn put(self, s: &mut [u8], at: usize) {
        put_bytes(s, at, &self.to_le_bytes());
    }
}

impl Field for u32 {
    ghost width = { 4 };

    ghost value = { λ x. x };

    #[tactic(auto, unfolding(crate::specs::Bytes::num, crate::specs::Bytes::le))]
    fn get(s: &[u8], at: usize) -> u32 {
        u32::from_le_bytes(array_at(s, at))
    }

    #[tactic(auto, unfolding(crate::specs::Bytes::bytes))]
    fn put(self, s: &mut [u8], at: usize) {
        put_bytes(s, at, &self.to_le_bytes());
    }
}

impl Field for u64 {
    ghost width = { 8 };

    ghost value = { λ x. x };

    #[tactic(auto, unfolding(crate::specs::Bytes::num, crate::specs::Bytes::le))]
    fn get(s: &[u8], at: usize) -> u64 {
        u64::from_le_bytes(array_at(s, at))
    }

    #[tactic(auto, unfolding(crate::specs::Bytes::bytes))]
    fn put(self, s: &mut [u8], at: usize) {
        put_bytes(s, at, &self.to_le_bytes());
    }
}

// The n low bytes of x, least first, stored at place at.
pub fn put_num(s: &mut [u8], at: usize, n: usize, x: u64)
    requires { at + n ≤ length s.old }
    ensures { s.new ≡ sets s.old at (bytes n x) }
{
    let mut v = x;
    for byte in &mut s[at..at + n] {
        *byte = (v % 256) as u8;
        v /= 256;
    }
}

// All of src, stored at place at. This and `copy_out` stay loops: the slice's own copy asks for `memmove`, a name that the archives for C would newly need.
pub fn put_bytes(s: &mut [u8], at: usize, src: &[u8])
    requires { at + length src.now ≤ length s.old }
    ensures { s.new ≡ sets s.old at src.now }
{
    let mut i = 0;
    while i < src.len() {
        s[at + i] = src[i];
        i += 1;
    }
}

// The bytes of s from place at on, as many as out has.
pub fn copy_out(out: &mut [u8], s: &[u8], at: usize)
    requires { at + length out.old ≤ length s.now }
    ensures { out.new ≡ part s.now at (length out.old) }
{
    let mut i = 0;
    while i < out.len() {
        out[i] = s[at + i];
        i += 1;
    }
}

// n zeros, stored at place at.
#[tactic(auto, using(crate::proofs::Lists::lent_back))]
pub fn put_zeros(s: &mut [u8], at: usize, n: usize)
    requires { at + n ≤ length s.old }
    ensures { s.new ≡ sets s.old at (replicate n 0) }
{
    s[at..at + n].fill(0);
}

// Fields one after the other from place at on: the value vals[i] in widths[i] bytes.
pub fn put_fields(s: &mut [u8], at: usize, widths: &[usize], vals: &[u64])
    requires { (length widths.now ≡ length vals.now) × (at + total widths.now ≤ length s.old) }
    ensures { s.new ≡ sets s.old at (laid widths.now vals.now) }
{
    let mut p = at;
    for (i, width) in widths.iter().enumerate() {
        put_num(s, p, *width, vals[i]);
        p += *width;
    }
}

// Whether the n bytes at place at are all zero: no early exit, so that it runs as vectors.
pub fn all_zero(s: &[u8], at: usize, n: usize) -> bool
    requires { at + n ≤ length s.now }
    ensures { result ≡ all_zero (part s.now at n) }
{
    s[at..at + n].iter().fold(0, |acc, b| acc | *b) == 0
}

// Whether the bytes at place at are those of other: no early exit, so that it runs as vectors.
pub fn same_at(s: &[u8], at: usize, other: &[u8]) -> bool
    requires { at + length other.now ≤ length s.now }
    ensures { result ≡ same (part s.now at (length other.now)) other.now }
{
    let own = &s[at..at + other.len()];
    own.iter().zip(other).fold(0, |acc, (x, y)| acc | (*x ^ *y)) == 0
}

impl Tail {
    // The eight bytes in their order.
    fn array(self) -> [u8; 8]
        ensures { result ≡ tail_bytes self }
    {
        [
            self.0, self.1, self.2, self.3, self.4, self.5, self.6, self.7,
        ]
    }
}

pub fn tail_is_zero(t: Tail) -> bool
    ensures { result ≡ all_zero (tail_bytes t) }
{
    all_zero(&t.array(), 0, 8)
}

// The eight bytes at place at.
pub fn tail_at(s: &[u8], at: usize) -> Tail
    requires { at + 8 ≤ length s.now }
    ensures { result ≡ tail_at s.now at }
{
    let [a, b, c, d, e, f, g, h] = array_at::<8>(s, at);
    Tail(a, b, c, d, e, f, g, h)
}

// The GUID in the sixteen bytes at place at.
pub fn guid_at(s: &[u8], at: usize) -> Guid
    requires { at + 16 ≤ length s.now }
    ensures { result ≡ guid_at s.now at }
{
    Guid {
        time_low: u32::get(s, at),
        time_mid: u16::get(s, at + 4),
        time_high: u16::get(s, at + 6),
        tail: tail_at(s, at + 8),
    }
}

pub fn put_tail(s: &mut [u8], at: usize, t: Tail)
    requires { at + 8 ≤ length s.old }
    ensures { s.new ≡ sets s.old at (tail_bytes t) }
{
    put_bytes(s, at, &t.array());
}

// The sixteen bytes of a GUID, stored at place at.
pub fn put_guid(s: &mut [u8], at: usize, g: Guid)
    requires { at + 16 ≤ length s.old }
    ensures { s.new ≡ sets s.old at (guid_bytes g) }
{
    g.time_low.put(s, at);
    g.time_mid.put(s, at + 4);
    g.time_high.put(s, at + 6);
    put_tail(s, at + 8, g.tail);
}
