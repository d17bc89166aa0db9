// Leaves for our own crates: each `requires` is a range that its caller has tested. No public calls.
ghost use Rattle.std.specs.Prelude.{◌≡◌, ◌+◌, ◌≤◌, ◌<◌, length};
ghost use Rattle.std.proofs.lemmas.List.Edits.{sets};
ghost use Rattle.text.specs.Digits.{digit_of, digits};
ghost use Rattle.text.specs.Ranges.{between};

// Whether a number lies from the first to the last of a range.
#[tactic(auto, using(units::proofs::Laws::tests), unfolding(crate::specs::Ranges::between))]
pub fn is_between(first: u32, x: u32, last: u32) -> bool
    ensures { result ≡ between first x last }
{
    first <= x && x <= last
}

// The digit of a value below 16.
#[tactic(auto, using(units::proofs::Laws::tests), unfolding(crate::specs::Digits::digit_of))]
fn digit_of(v: u8) -> u8
    requires { v < 16 }
    ensures { result ≡ digit_of v }
{
    if v < 10 { b'0' + v } else { b'a' + (v - 10) }
}

// The n low digits of x in a base, the highest first, stored at place at.
pub fn put_digits(s: &mut [u8], at: usize, base: u64, n: usize, x: u64)
    requires { (0 < base) × (base ≤ 16) × (at + n ≤ length s.old) }
    ensures { s.new ≡ sets s.old at (digits base n x) }
{
    let mut v = x;
    for i in (0..n).rev() {
        s[at + i] = digit_of((v % base) as u8);
        v /= base;
    }
}
