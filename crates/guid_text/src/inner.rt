// Leaves for our own crates: each `requires` is a range that its caller has tested. No public calls.
ghost use Rattle.std.specs.Prelude.{◌≡◌, ◌+◌, ◌^◌, ◌≤◌, ◌<◌, length};
ghost use Rattle.std.proofs.lemmas.List.Edits.{sets};
ghost use Rattle.guid_text.specs.Hex.{hex_digit_value};
ghost use Rattle.guid_text.specs.GuidTexts.{group, clock_of, node_of, text_of_guid, dash_place, right_at, wrong_from, hex_in, tail_in, guid_in, bad_guid};

use crate::GuidOfText;
use text::inner::{is_between, put_digits};
use units::{Guid, Tail};

// The n low hexadecimal digits of x, stored at place at, with a dash behind them.
#[tactic(auto, using(crate::proofs::Laws::groups))]
fn put_group(s: &mut [u8], at: usize, n: usize, x: u64)
    requires { at + n < length s.old }
    ensures { s.new ≡ sets s.old at (group n x) }
{
    put_digits(s, at, 16, n, x);
    s[at + n] = b'-';
}

// The fourth and the fifth group as numbers: the first two bytes of a tail, and the last six, the highest first.
#[tactic(auto, unfolding(crate::specs::GuidTexts::big))]
fn clock(t: Tail) -> u64
    ensures { result ≡ clock_of t }
{
    u16::from_be_bytes([t.0, t.1]) as u64
}

#[tactic(auto, unfolding(crate::specs::GuidTexts::big))]
fn node(t: Tail) -> u64
    ensures { result ≡ node_of t }
{
    u64::from_be_bytes([0, 0, t.2, t.3, t.4, t.5, t.6, t.7])
}

// The text of a GUID in 36 bytes.
pub fn put_guid_text(s: &mut [u8; 36], guid: Guid)
    ensures { s.new ≡ text_of_guid guid }
{
    put_group(s, 0, 8, guid.time_low as u64);
    put_group(s, 9, 4, guid.time_mid as u64);
    put_group(s, 14, 4, guid.time_high as u64);
    put_group(s, 19, 4, clock(guid.tail));
    put_digits(s, 24, 16, 12, node(guid.tail));
}

// What a digit of either case stands for; 16 for what is no digit. The letter A stands for ten: its code is 65, and that of a is 97.
// Ranges are tested one by one: with a `match` of ranges a text took 130 ns where it takes 100, and 71 with the loop below.
#[tactic(auto, using(units::proofs::Laws::tests), unfolding(crate::specs::Hex::hex_digit_value, text::specs::Ranges::between))]
pub fn digit_value(c: u8) -> u8
    ensures { result ≡ hex_digit_value c }
{
    if is_between(48, u32::from(c), 57) {
        c - b'0'
    } else if is_between(65, u32::from(c), 70) {
        c - b'A' + 10
    } else if is_between(97, u32::from(c), 102) {
        c - b'a' + 10
    } else {
        16
    }
}

// Whether a GUID's text has a dash at a place.
#[tactic(auto, using(units::proofs::Laws::tests), unfolding(crate::specs::GuidTexts::dash_place))]
fn is_dash_place(i: usize) -> bool
    ensures { result ≡ dash_place i }
{
    matches!(i, 8 | 13 | 18 | 23)
}

// Whether the byte of a place is the dash or the digit that the place asks for. Behind the end of the text there is none.
#[tactic(auto, using(units::proofs::Laws::tests, crate::proofs::Laws::places), unfolding(crate::specs::GuidTexts::right_at))]
fn right_at(text: &[u8], i: usize) -> bool
    ensures { result ≡ right_at text.now i }
{
    match text.get(i) {
        None => false,
        Some(c) if is_dash_place(i) => *c == b'-',
        Some(c) => digit_value(*c) < 16,
    }
}

// The first of the 36 places of a GUID's text whose byte is wrong; 36 where none is.
// It stays a `while`: with a `for` a text took 100 ns where it takes 71.
pub fn first_wrong(text: &[u8]) -> usize
    ensures { (result ≡ wrong_from text.now 0 36) × (result ≤ 36) }
{
    let mut i = 0;
    while i < 36 {
        if !right_at(text, i) {
            return i;
        }
        i += 1;
    }
    i
}

// The number in the n digits at place at.
pub fn hex_at(text: &[u8], at: usize, n: usize) -> u64
    requires { (n ≤ 8) × (at + n ≤ length text.now) }
    ensures { (result ≡ hex_in text.now at n) × (result < 16 ^ n) }
{
    let mut v = 0;
    for c in &text[at..at + n] {
        v = v * 16 + (digit_value(*c) % 16) as u64;
    }
    v
}

fn byte_in(text: &[u8], at: usize) -> u8
    requires { at + 2 ≤ length text.now }
    ensures { result ≡ hex_in text.now at 2 }
{
    hex_at(text, at, 2) as u8
}

#[tactic(auto, unfolding(crate::specs::GuidTexts::tail_in))]
fn tail_in(text: &[u8]) -> Tail
    requires { length text.now ≡ 36 }
    ensures { result ≡ tail_in text.now }
{
    Tail(
        byte_in(text, 19),
        byte_in(text, 21),
        byte_in(text, 24),
        byte_in(text, 26),
        byte_in(text, 28),
        byte_in(text, 30),
        byte_in(text, 32),
        byte_in(text, 34),
    )
}

// The GUID that the digits of 36 bytes stand for.
#[tactic(auto, unfolding(crate::specs::GuidTexts::guid_in))]
pub fn guid_in(text: &[u8]) -> Guid
    requires { length text.now ≡ 36 }
    ensures { result ≡ guid_in text.now }
{
    Guid {
        time_low: hex_at(text, 0, 8) as u32,
        time_mid: hex_at(text, 9, 4) as u16,
        time_high: hex_at(text, 14, 4) as u16,
        tail: tail_in(text),
    }
}

// A text that is no GUID, with the place of its first wrong byte.
pub fn bad_guid(at: usize) -> GuidOfText
    ensures { result ≡ bad_guid at }
{
    GuidOfText {
        number: 39,
        at,
        guid: Guid::nil(),
    }
}
