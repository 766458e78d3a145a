// The natural logarithm of one f32 lane (ln_f32 of the Rust's math.rs), of any values. Each operation is rounded once, in the Rust's order.
ghost use Rattle.std.specs.Prelude.{map, ◌≡◌};
ghost use Rattle.std.specs.Float.{binary32};
ghost use Rattle.math.specs.Ln.{exponent32, reduced32, ln};

use crate::formulas::F32;
use floats::patterns;

const SQRT_2: f32 = 1.41421356237309504880168872420969808;

// The field above the digits less 127, and 1 more if m was halved.
fn exponent(bits: u32, halved: bool) -> f32
    ensures { result ≡ exponent32 bits halved }
{
    let k = (bits >> 23) + halved as u32;
    (k as i32 - 127) as f32
}

// The logarithm of m * 2^ef, for m in [sqrt(1/2), sqrt(2)].
fn reduced(m: f32, ef: f32) -> f32
    ensures { result ≡ reduced32 m ef }
{
    let f = m - 1.0;
    let z = f * f;
    let mut y = 7.037_683_6e-2_f32;
    y = y * f - 1.151_461e-1;
    y = y * f + 1.167_699_9e-1;
    y = y * f - 1.242_014_1e-1;
    y = y * f + 1.424_932_3e-1;
    y = y * f - 1.666_805_8e-1;
    y = y * f + 2.000_071_5e-1;
    y = y * f - 2.499_999_4e-1;
    y = y * f + 3.333_333_4e-1;
    y = y * f * z;
    y = y + ef * -2.121_944_4e-4;
    y = y - 0.5 * z;
    (f + y) + ef * 0.693_359_4
}

pub fn lane(x: f32) -> f32
    ensures { result ≡ ln binary32 x }
{
    let bits = patterns::to_bits_f32(x);
    let m = patterns::from_bits_f32((bits & 0x007F_FFFF) | 0x3F80_0000);
    let big = m > SQRT_2;
    let ef = exponent(bits, big);
    reduced(patterns::select(big, m * 0.5, m), ef)
}

// Eight lanes.
pub fn lanes(x: [f32; 8]) -> [f32; 8]
    ensures { result ≡ map (ln binary32) x }
{
    math::lanes::ln::<F32>(x)
}
