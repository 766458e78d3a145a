// Unit floats: a word's upper bits as a fraction in [0, 1), 1 less that fraction (lib.rs of the Rust), and fractions that are never 0.
// Nothing is rounded.
ghost use Rattle.std.specs.Prelude.{◌≡◌};
ghost use Rattle.std.specs.Float.{binary32, binary64};
ghost use Rattle.floats.specs.units.Unit.{unit, one_minus_unit, open01, unit_of};

use crate::patterns;

const INV_2_24: f32 = 1.0 / 16_777_216.0;

const INV_2_53: f64 = 1.0 / 9_007_199_254_740_992.0;

// floor(x / 2^8) / 2^24
pub fn u32_to_unit_f32(x: u32) -> f32
    ensures { result ≡ unit binary32 x }
{
    (x >> 8) as f32 * INV_2_24
}

// floor(x / 2^12) / 2^52: the pattern of 1.0 with the word's upper 52 bits for digits, minus 1.0.
pub fn u64_to_unit_f64(x: u64) -> f64
    ensures { result ≡ unit binary64 x }
{
    f64::from_bits((x >> 12) | 0x3FF0_0000_0000_0000) - 1.0
}

// 1 - unit, in (0, 1].
pub fn one_minus_unit_f32(x: u32) -> f32
    ensures { result ≡ one_minus_unit binary32 x }
{
    1.0 - u32_to_unit_f32(x)
}

pub fn one_minus_unit_f64(x: u64) -> f64
    ensures { result ≡ one_minus_unit binary64 x }
{
    1.0 - u64_to_unit_f64(x)
}

// (2 floor(x / 2^9) + 1) / 2^24, in (0, 1): the pattern of 1.0 with the upper 23 bits of x for digits, minus 1 - 2^-24.
pub fn u32_to_open01_f32(x: u32) -> f32
    ensures { result ≡ open01 binary32 x }
{
    f32::from_bits((x >> 9) | 0x3F80_0000) - (1.0 - INV_2_24)
}

// (2 floor(x / 2^12) + 1) / 2^53, in (0, 1): the pattern of 1.0 with the upper 52 bits of x for digits, minus 1 - 2^-53.
pub fn u64_to_open01_f64(x: u64) -> f64
    ensures { result ≡ open01 binary64 x }
{
    f64::from_bits((x >> 12) | 0x3FF0_0000_0000_0000) - (1.0 - INV_2_53)
}

// That one, or the unit: a loop that makes either of them decides before it begins what is taken off.
pub fn u64_to_f64(x: u64, nonzero: bool) -> f64
    ensures { result ≡ unit_of binary64 nonzero x }
{
    let less = patterns::select(nonzero, 1.0 - INV_2_53, 1.0);
    f64::from_bits((x >> 12) | 0x3FF0_0000_0000_0000) - less
}
