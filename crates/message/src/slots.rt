// The slot behind a line, in decimal digits.
ghost use Rattle.std.specs.Prelude.{◌≡◌, ◌+◌, ◌≤◌, length};
ghost use Rattle.std.proofs.lemmas.List.Edits.{sets};
ghost use Rattle.message.specs.Words.{digit_count, decimal, bracketed, slot_words};

use text::inner::put_digits;

// How many decimal digits a number has.
#[tactic(auto, using(units::proofs::Laws::tests), unfolding(crate::specs::Words::digit_count, crate::specs::Words::reached))]
fn digit_count(n: u32) -> usize
    ensures { (result ≡ digit_count n) × (result ≤ 10) }
{
    match n {
        0..=9 => 1,
        10..=99 => 2,
        100..=999 => 3,
        1000..=9999 => 4,
        10000..=99999 => 5,
        100000..=999999 => 6,
        1000000..=9999999 => 7,
        10000000..=99999999 => 8,
        100000000..=999999999 => 9,
        _ => 10,
    }
}

// A number in decimal digits, stored at place at, and the place behind it.
fn put_decimal(out: &mut [u8; 160], at: usize, n: u32) -> usize
    requires { at ≤ 150 }
    ensures { (result ≡ at + length (decimal n)) × (result ≤ at + 10) × (out.new ≡ sets out.old at (decimal n)) }
{
    let k = digit_count(n);
    put_digits(out, at, 10, k, n as u64);
    at + k
}

// The slot in brackets, and the place behind them.
fn put_bracketed(out: &mut [u8; 160], at: usize, slot: u32) -> usize
    requires { at ≤ 140 }
    ensures { (result ≡ at + length (bracketed slot)) × (result ≤ at + 18) × (out.new ≡ sets out.old at (bracketed slot)) }
{
    out[at..at + 7].copy_from_slice(b" (slot ");
    let end = put_decimal(out, at + 7, slot);
    out[end] = b')';
    end + 1
}

// The words of the slot behind a line of a message, and the place behind them.
#[tactic(auto, using(units::proofs::Laws::tests), unfolding(crate::specs::Words::slot_words))]
pub fn put_slot(out: &mut [u8; 160], at: usize, line: u32, slot: u32) -> usize
    requires { at ≤ 140 }
    ensures { (result ≡ at + length (slot_words line slot)) × (result ≤ 158) × (out.new ≡ sets out.old at (slot_words line slot)) }
{
    if line == 51 {
        return put_decimal(out, at, slot);
    }
    if slot == 0 || line == 0 || 40 < line {
        return at;
    }
    put_bracketed(out, at, slot)
}
