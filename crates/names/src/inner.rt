// Leaves: one character of UTF-8 or UTF-16, read and written. Each `requires` is a range that its caller has tested. No public calls.
ghost use Rattle.std.specs.Prelude.{◌≡◌, ◌+◌, ◌*◌, ◌≤◌, ◌<◌, length, take};
ghost use Rattle.std.proofs.lemmas.List.Edits.{sets};
ghost use Rattle.names.specs.Utf8.{no_scalar, replacement, size_of, in_range, of_two, of_three, of_four, scalar_at, units_of, utf8_of, point_of};
ghost use Rattle.names.specs.NameTexts.{refused_name, unit_at, point_at, name_text};

use crate::NameOfText;
use text::inner::is_between;

// A scalar value, and how many bytes or units it takes; size 0: there is none.
#[derive(Clone, Copy)]
pub struct Scalar {
    pub size: usize,
    pub code: u32,
}

// A text of at most 108 bytes: the first `count` of these.
#[derive(Clone, Copy)]
pub struct Words {
    pub count: usize,
    pub words: [u8; 108],
}

pub fn none() -> Scalar
    ensures { result ≡ no_scalar }
{
    Scalar { size: 0, code: 0 }
}

// What stands for a surrogate that has no partner: U+FFFD.
pub fn replaced() -> Scalar
    ensures { result ≡ replacement }
{
    Scalar {
        size: 1,
        code: 0xFFFD,
    }
}

// How many bytes a character takes, by its first byte; 0 where none begins with it.
#[tactic(auto, using(units::proofs::Laws::tests), unfolding(crate::specs::Utf8::size_of))]
pub fn size_of(c: u8) -> usize
    ensures { result ≡ size_of c }
{
    match c {
        0..=127 => 1,
        192..=223 => 2,
        224..=239 => 3,
        240..=247 => 4,
        _ => 0,
    }
}

// A value that was read from `size` bytes, unless fewer bytes hold it, or it is a surrogate, or past the last.
pub fn in_range(size: usize, least: u32, code: u32) -> Scalar
    ensures { result ≡ in_range size least code }
{
    if code < least {
        return none();
    }
    if is_between(0xD800, code, 0xDFFF) {
        return none();
    }
    if 0x10FFFF < code {
        return none();
    }
    Scalar { size, code }
}

pub fn of_two(c: u8, d: u8) -> Scalar
    ensures { result ≡ of_two c d }
{
    if !is_between(128, d as u32, 191) {
        return none();
    }
    in_range(2, 128, (c as u32) % 32 * 64 + (d as u32) % 64)
}

pub fn of_three(c: u8, d: u8, e: u8) -> Scalar
    ensures { result ≡ of_three c d e }
{
    if !is_between(128, d as u32, 191) {
        return none();
    }
    if !is_between(128, e as u32, 191) {
        return none();
    }
    in_range(
        3,
        2048,
        (c as u32) % 16 * 4096 + (d as u32) % 64 * 64 + (e as u32) % 64,
    )
}

pub fn of_four(c: u8, d: u8, e: u8, f: u8) -> Scalar
    ensures { result ≡ of_four c d e f }
{
    if !is_between(128, d as u32, 191) {
        return none();
    }
    if !is_between(128, e as u32, 191) {
        return none();
    }
    if !is_between(128, f as u32, 191) {
        return none();
    }
    in_range(
        4,
        65536,
        (c as u32) % 8 * 262144 + (d as u32) % 64 * 4096 + (e as u32) % 64 * 64 + (f as u32) % 64,
    )
}

// The character whose bytes begin at place at.
pub fn scalar_at(text: &[u8], at: usize) -> Scalar
    requires { at < length text.now }
    ensures { (result ≡ scalar_at text.now at) × (at + result.size ≤ length text.now) × (result.code < 0x110000) }
{
    let c = text[at];
    let n = size_of(c);
    if n == 0 {
        return none();
    }
    if text.len() - at < n {
        return none();
    }
    if n == 1 {
        return Scalar {
            size: 1,
            code: c as u32,
        };
    }
    if n == 2 {
        return of_two(c, text[at + 1]);
    }
    if n == 3 {
        return of_three(c, text[at + 1], text[at + 2]);
    }
    of_four(c, text[at + 1], text[at + 2], text[at + 3])
}

// How many UTF-16 units a scalar value takes.
#[tactic(auto, using(crate::proofs::Sizes::unit_counts))]
pub fn unit_count(code: u32) -> usize
    ensures { (result ≡ length (units_of code)) × (result ≤ 2) }
{
    if code < 65536 { 1 } else { 2 }
}

// The units of a scalar value, stored at place k of a name.
pub fn put_units(name: &mut [u16; 36], k: usize, code: u32)
    requires { (code < 0x110000) × (k + length (units_of code) ≤ 36) }
    ensures { name.new ≡ sets name.old k (units_of code) }
{
    if code < 65536 {
        name[k] = code as u16;
        return;
    }
    let v = code - 65536;
    name[k] = (0xD800 + v / 1024) as u16;
    name[k + 1] = (0xDC00 + v % 1024) as u16;
}

// A text that gives no name: why, and at which place.
pub fn refused(number: u32, at: usize) -> NameOfText
    ensures { result ≡ refused_name number at }
{
    NameOfText {
        number,
        at,
        name: [0; 36],
    }
}

// The unit at place i of a name; zero where it has none, and from place 36 on.
#[tactic(auto, using(units::proofs::Laws::tests), unfolding(crate::specs::NameTexts::unit_at))]
pub fn unit_at(name: &[u16], i: usize) -> u16
    ensures { result ≡ unit_at name.now i }
{
    if 36 <= i {
        return 0;
    }
    name.get(i).copied().unwrap_or(0)
}

// What a unit u stands for, with the unit w behind it: a pair, or U+FFFD for a surrogate that has no partner, or u itself.
#[tactic(auto, using(units::proofs::Laws::tests), unfolding(crate::specs::Utf8::point_of, text::specs::Ranges::between))]
pub fn point_of(u: u16, w: u16) -> Scalar
    ensures { result ≡ point_of u w }
{
    match (u, w) {
        (0xD800..=0xDBFF, 0xDC00..=0xDFFF) => Scalar {
            size: 2,
            code: 0x10000 + u as u32 % 1024 * 1024 + w as u32 % 1024,
        },
        (0xD800..=0xDFFF, _) => replaced(),
        _ => Scalar {
            size: 1,
            code: u as u32,
        },
    }
}

// What the unit at place i of a name stands for: its units are inside the 36, and it takes at most three bytes for each of them.
pub fn point_at(name: &[u16], i: usize) -> Scalar
    requires { i < 36 }
    ensures value { (result ≡ point_at name.now i) × (1 ≤ result.size) × (i + result.size ≤ 36) }
    ensures code_bound { (result.code < 0x110000) × (length (utf8_of result.code) ≤ 3 * result.size) }
{
    point_of(unit_at(name, i), unit_at(name, i + 1))
}

// How many bytes of UTF-8 a scalar value takes.
#[tactic(auto, using(crate::proofs::Sizes::byte_counts))]
pub fn byte_count(code: u32) -> usize
    ensures { result ≡ length (utf8_of code) }
{
    match code {
        0..=127 => 1,
        128..=2047 => 2,
        2048..=65535 => 3,
        _ => 4,
    }
}

// The bytes of a scalar value, stored at place n of a text.
pub fn put_utf8(words: &mut [u8; 108], n: usize, code: u32)
    requires { (code < 0x110000) × (n + length (utf8_of code) ≤ 108) }
    ensures { words.new ≡ sets words.old n (utf8_of code) }
{
    if code < 128 {
        words[n] = code as u8;
        return;
    }
    if code < 2048 {
        words[n] = (192 + code / 64) as u8;
        words[n + 1] = (128 + code % 64) as u8;
        return;
    }
    if code < 65536 {
        words[n] = (224 + code / 4096) as u8;
        words[n + 1] = (128 + code / 64 % 64) as u8;
        words[n + 2] = (128 + code % 64) as u8;
        return;
    }
    words[n] = (240 + code / 262144) as u8;
    words[n + 1] = (128 + code / 4096 % 64) as u8;
    words[n + 2] = (128 + code / 64 % 64) as u8;
    words[n + 3] = (128 + code % 64) as u8;
}

// The text of a name.
pub fn compose(name: &[u16]) -> Words
    ensures { (result.count ≤ length result.words) × (take result.count result.words ≡ name_text name.now) }
{
    let mut words = [0u8; 108];
    let mut i = 0;
    let mut n = 0;
    // No `for` and no chunks: a character takes one unit or two, so the place goes on by as many.
    while i < 36 {
        let u = unit_at(name, i);
        if u == 0 {
            return Words { count: n, words };
        }
        let p = point_at(name, i);
        put_utf8(&mut words, n, p.code);
        n += byte_count(p.code);
        i += p.size;
    }
    Words { count: n, words }
}
