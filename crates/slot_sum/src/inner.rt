// The sum after one slot: for this product's other crates. These are no public calls: they have `requires`.
ghost use Rattle.std.specs.Prelude.{◌≡◌, ℕ, ◌*◌, ◌-◌, ◌%◌, ◌^◌, ◌≤◌, ◌<◌, replicate};
ghost use Rattle.crc32.specs.Crc.{steps, feed};
ghost use Rattle.slot_sum.specs.SlotSum.{sum_after};

// POWERS[i] is x^(8·2^i) mod P: multiplying by it feeds 2^i zero bytes.
static POWERS: [u32; 20] = [
    0x00800000, 0x00008000, 0xedb88320, 0xb1e6b092, 0xa06a2517, 0xed627dae, 0x88d14467, 0xd7bbfe6a,
    0xec447f11, 0x8e7ea170, 0x6427800e, 0x4d47bae0, 0x09fe548f, 0x83852d0f, 0x30362f1a, 0x7b5a9cc3,
    0x31fec169, 0x9fec022a, 0x6c8dedc4, 0x15d6874d,
];

// The register x after 2 ^ k bytes of zero, if what is left is odd.
fn past_one(x: u32, left: usize, k: usize) -> u32
    requires { k < 20 }
    ensures { result ≡ steps (8 * (left % 2 * 2 ^ k)) x }
{
    if left % 2 == 1 {
        return crc32::carry::carried(POWERS[k], x);
    }
    x
}

// The register x after so many times 2 ^ k bytes of zero, which are halved at each step.
fn past_zeros(x: u32, left: usize, k: usize) -> u32
    requires { (k ≤ 20) × (left < 2 ^ (20 - k)) }
    ensures { result ≡ feed x (replicate (left * 2 ^ k) 0) }
{
    if left == 0 {
        return x;
    }
    let y = past_one(x, left, k);
    past_zeros(y, left / 2, k + 1)
}

// The sum of a list of bytes in which `old` became `new`, so many bytes before its end, from its sum before that.
pub fn sum_after(sum: u32, old: &[u8], new: &[u8], after: usize) -> u32
    requires { after < 2 ^ 20 }
    ensures { result ≡ sum_after sum old.now new.now after }
{
    let before = crc32::inner::sum(crc32::FRESH, old);
    let behind = crc32::inner::sum(crc32::FRESH, new);
    sum ^ past_zeros(before ^ behind, after, 0)
}
