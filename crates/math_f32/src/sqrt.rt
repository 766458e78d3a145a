// The square root of one f32 lane (sqrt_f32 of the Rust's math.rs), of any values: a guess at 1/sqrt(v) from the pattern, Newton's
// steps, and a correction by the residue. Each operation is rounded once, in the Rust's order.
ghost use Rattle.std.specs.Prelude.{map, ◌≡◌, false, is_nan};
ghost use Rattle.std.specs.Float.{binary32};
ghost use Rattle.math.specs.Sqrt.{guess_of, newton_step, sqrt};

use crate::formulas::F32;

// For the values between these two, and for no other number, the guess's pattern would be a NaN's.
const LOW: f32 = -0.932_450_06;

const HIGH: f32 = -0.233_112_53;

// guess and newton have twins in math_f64: generic ones would take each literal and operation from a trait, which is no plainer.
// A guess at 1/sqrt(v) by its pattern. What it is for a NaN does not matter: the root of a NaN is a NaN.
fn guess(v: f32) -> f32
    ensures { is_nan v ≡ false → result ≡ guess_of binary32 v }
{
    if (v <= LOW) | (v >= HIGH) {
        f32::from_bits(std::num::wrapping_sub_u32(0x5F37_5A86, f32::to_bits(v) >> 1))
    } else {
        0.0 / 0.0
    }
}

// Newton's step towards 1/sqrt(v).
fn newton(v: f32, y: f32) -> f32
    ensures { result ≡ newton_step binary32 v y }
{
    y * (1.5 - 0.5 * v * y * y)
}

pub fn lane(v: f32) -> f32
    ensures { result ≡ sqrt binary32 v }
{
    let mut y = guess(v);
    y = newton(v, y);
    y = newton(v, y);
    let s = v * y;
    s + 0.5 * y * (v - s * s)
}

// Eight lanes.
pub fn lanes(x: [f32; 8]) -> [f32; 8]
    ensures { result ≡ map (sqrt binary32) x }
{
    math::lanes::sqrt::<F32>(x)
}
