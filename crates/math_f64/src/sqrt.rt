// The square root of one f64 lane (sqrt_f64 of the Rust's math.rs), of any values: a guess at 1/sqrt(v) from the pattern, Newton's
// steps, and a correction by the residue. Each operation is rounded once, in the Rust's order.
ghost use Rattle.std.specs.Prelude.{map, ◌≡◌, false, is_nan};
ghost use Rattle.std.specs.Float.{binary64};
ghost use Rattle.math.specs.Sqrt.{guess_of, newton_step, sqrt};

use crate::formulas::F64;

// For the values between these two, and for no other number, the guess's pattern would be a NaN's.
const LOW: f64 = -0.932_450_084_790_142_5;

const HIGH: f64 = -0.233_112_521_197_535_64;

// guess and newton have twins in math_f32: generic ones would take each literal and operation from a trait, which is no plainer.
// A guess at 1/sqrt(v) by its pattern. What it is for a NaN does not matter: the root of a NaN is a NaN.
fn guess(v: f64) -> f64
    ensures { is_nan v ≡ false → result ≡ guess_of binary64 v }
{
    if (v <= LOW) | (v >= HIGH) {
        f64::from_bits(std::num::wrapping_sub_u64(0x5FE6_EB50_C7B5_37A9, f64::to_bits(v) >> 1))
    } else {
        0.0 / 0.0
    }
}

// Newton's step towards 1/sqrt(v).
fn newton(v: f64, y: f64) -> f64
    ensures { result ≡ newton_step binary64 v y }
{
    y * (1.5 - 0.5 * v * y * y)
}

pub fn lane(v: f64) -> f64
    ensures { result ≡ sqrt binary64 v }
{
    let mut y = guess(v);
    y = newton(v, y);
    y = newton(v, y);
    y = newton(v, y);
    let s = v * y;
    s + 0.5 * y * (v - s * s)
}

// Eight lanes.
pub fn lanes(x: [f64; 8]) -> [f64; 8]
    ensures { result ≡ map (sqrt binary64) x }
{
    math::lanes::sqrt::<F64>(x)
}
