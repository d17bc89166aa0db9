// The check sum of a header for C, for the measurement in bench/crc.c alone: the library for C has `gpt_crc32`. A slice crosses as a pointer and a length.
#![tactic(auto)]

ghost use Rattle.std.specs.Prelude.{◌≡◌, ◌+◌, ◌≤◌};
ghost use Rattle.crc32_c.specs.Exports.{exported_sum, exported_sums, next_place};

use crc32::inner;

// The check sum of the header in the first 92 bytes of h, with zero for its own field; 0 where h has fewer bytes.
#[unsafe(no_mangle)]
pub extern "C" fn rt_header_sum(h: &[u8]) -> u32
    ensures { result ≡ exported_sum h.now }
{
    if h.len() < 92 {
        return 0;
    }
    inner::header_sum_at(h, 0)
}

// n header sums, xored: at each place of s in turn, so that no two sums in a row are the same. For the measurement alone.
#[unsafe(no_mangle)]
pub extern "C" fn rt_header_sums(s: &[u8], n: u32) -> u32
    ensures { result ≡ exported_sums s.now n }
{
    if s.len() < 92 {
        return 0;
    }
    let mut sum: u32 = 0;
    let mut at: usize = 0;
    let mut i: u32 = 0;
    while i < n {
        sum ^= inner::header_sum_at(s, at);
        at = following(at, s.len());
        i += 1;
    }
    sum
}

// The place after `at` at which a header still fits into n bytes, or else the first.
#[tactic(auto, unfolding(crate::specs::Exports::next_place))]
fn following(at: usize, n: usize) -> usize
    requires le_n { 92 ≤ n }
    requires at_bound { at + 92 ≤ n }
    ensures { (result ≡ next_place at n) × (result + 92 ≤ n) }
{
    if n - at > 92 { at + 1 } else { 0 }
}
