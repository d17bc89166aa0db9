// The product of two registers, by which one is carried over as many bits of zero as the other has passed: for this crate's runs of zero and for `slot_sum`.
// No public calls.
ghost use Rattle.std.specs.Prelude.{◌≡◌, ℕ, ◌*◌, ◌%◌};
ghost use Rattle.crc32.specs.Crc.{step, steps};

// One bit of zero.
fn one_bit(r: u32) -> u32
    ensures { result ≡ step r }
{
    (r % 2 * 0xedb88320) ^ (r / 2)
}

// The register r, or 0, by the lowest bit of a.
fn lowest_times(a: u32, r: u32) -> u32
    ensures { result ≡ a % 2 * r }
{
    if a % 2 == 1 {
        return r;
    }
    0
}

// The register r, as far on as a is from 0x80000000: the two are multiplied as polynomials, bit by bit.
pub fn carried(a: u32, r: u32) -> u32
    ensures { (n : ℕ) → a ≡ steps n 0x80000000 → result ≡ steps n r }
{
    let mut x = 0;
    let mut rest = a;
    let mut bits = 0u32;
    while bits < 32 {
        x = one_bit(x) ^ lowest_times(rest, r);
        rest = rest / 2;
        bits += 1;
    }
    x
}
