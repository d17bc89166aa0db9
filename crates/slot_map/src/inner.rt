// Leaves for our own crates: each `requires` is what its caller has tested. No public calls.
ghost use Rattle.std.specs.Prelude.{◌≡◌, true, false, ◌+◌, ◌≤◌, ◌<◌, length, set};
ghost use Rattle.tables.specs.Lens.{Front, copy_in};
ghost use Rattle.slot_map.specs.Bits.{bits_of, map_of, first_false, count_true};
ghost use Rattle.slot_map.specs.Map.{flags_from, made_of};

use crate::SlotMap;
use units::Reason;
use units::why::Why;

// A word with bit k set, and with bit k clear.
fn word_set(x: u64, k: u64) -> u64
    requires { k < 64 }
    ensures { bits_of 64 result ≡ set (bits_of 64 x) k true }
{
    x | (1u64 << k)
}

fn word_clear(x: u64, k: u64) -> u64
    requires { k < 64 }
    ensures { bits_of 64 result ≡ set (bits_of 64 x) k false }
{
    x & !(1u64 << k)
}

fn word_with(x: u64, k: u64, yes: bool) -> u64
    requires { k < 64 }
    ensures { bits_of 64 result ≡ set (bits_of 64 x) k yes }
{
    if yes {
        return word_set(x, k);
    }
    word_clear(x, k)
}

// The place of the lowest clear bit, or 64.
pub fn word_free(x: u64) -> u32
    ensures { result ≡ first_false (bits_of 64 x) }
{
    u64::trailing_zeros(!x)
}

// How many bits are set.
pub fn word_used(x: u64) -> u32
    ensures { (result ≡ count_true (bits_of 64 x)) × (result ≤ 64) }
{
    u64::count_ones(x)
}

// The map with the bit of an array place.
pub fn with_bit(m: SlotMap, place: u32, yes: bool) -> SlotMap
    requires { place < 128 }
    ensures { map_of result ≡ set (map_of m) place yes }
{
    if place < 64 {
        return SlotMap {
            low: word_with(m.low, place as u64, yes),
            high: m.high,
        };
    }
    SlotMap {
        low: m.low,
        high: word_with(m.high, place as u64 - 64, yes),
    }
}

// The map of a front table, by its own b + 16,384 bytes, as in `tables::inner`.
pub fn map_of(copy: &[u8], b: u64) -> SlotMap
    requires { (b ≤ 4096) × (length copy.now ≡ b + 16384) }
    ensures { map_of result ≡ flags_from (copy_in b Front copy.now).array 0 128 }
{
    let array = tables::inner::array_in(b, false);
    let mut m = SlotMap { low: 0, high: 0 };
    for k in 0..128u32 {
        let at = partition::inner::entry_place(array, k as usize);
        m = with_bit(m, k, partition::inner::is_present(copy, at.0));
    }
    m
}

// The answer by its name: a refusal, or the map where nothing refuses.
pub fn made(found: Why, map: SlotMap) -> Result<SlotMap, Reason>
    ensures { result ≡ made_of found map }
{
    let n = found.number;
    if n == 0 {
        return Ok(map);
    }
    Err(found.reason())
}
