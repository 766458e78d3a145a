// The natural logarithm of one f64 lane (ln_f64 of the Rust's math.rs), of any values. Each operation is rounded once, in the Rust's order.
ghost use Rattle.std.specs.Prelude.{map, ◌≡◌};
ghost use Rattle.std.specs.Float.{binary64};
ghost use Rattle.math.specs.Ln.{ln};
ghost use Rattle.math_f64.specs.ln.Parts.{parts_of, series_start, series_end};

use crate::formulas::F64;
use floats::patterns;

const SQRT_2: f64 = 1.41421356237309504880168872420969808;

const LN2_HI: f64 = 6.931_471_803_691_238e-1;

const LN2_LO: f64 = 1.908_214_929_270_587_7e-10;

// What the logarithm takes a float apart into: the float is m * 2^e, and s is (m - 1) / (m + 1).
#[derive(Clone, Copy)]
pub struct Parts {
    pub s: f64,
    pub e: f64,
}

// The exponent's field becomes a float by the pattern of 2^52, as in the Rust.
pub fn split(x: f64) -> Parts
    ensures { result ≡ parts_of x }
{
    let bits = patterns::to_bits_f64(x);
    let digits = patterns::from_bits_f64((bits & 0x000F_FFFF_FFFF_FFFF) | 0x3FF0_0000_0000_0000);
    let field = patterns::from_bits_f64((bits >> 52) | 0x4330_0000_0000_0000)
        - (4_503_599_627_370_496.0 + 1023.0);
    let big = digits > SQRT_2;
    let e = patterns::select(big, field + 1.0, field);
    let f = patterns::select(big, digits * 0.5, digits) - 1.0;
    let s = f / (2.0 + f);
    Parts { s, e }
}

// The series in s begun. It stands in two functions for loops over many lanes, of which each does a part.
pub fn series_start(s: f64) -> f64
    ensures { result ≡ series_start s }
{
    let z = s * s;
    let mut p = 1.0 / 23.0;
    p = p * z + 1.0 / 21.0;
    p = p * z + 1.0 / 19.0;
    p = p * z + 1.0 / 17.0;
    p = p * z + 1.0 / 15.0;
    p * z + 1.0 / 13.0
}

// The series ended, and the logarithm.
pub fn series_end(s: f64, e: f64, y: f64) -> f64
    ensures { result ≡ series_end s e y }
{
    let z = s * s;
    let mut p = y * z + 1.0 / 11.0;
    p = p * z + 1.0 / 9.0;
    p = p * z + 1.0 / 7.0;
    p = p * z + 1.0 / 5.0;
    p = p * z + 1.0 / 3.0;
    let r = 2.0 * s + 2.0 * s * z * p;
    e * LN2_HI + (r + e * LN2_LO)
}

pub fn lane(x: f64) -> f64
    ensures { result ≡ ln binary64 x }
{
    let parts = split(x);
    series_end(parts.s, parts.e, series_start(parts.s))
}

// Eight lanes.
pub fn lanes(x: [f64; 8]) -> [f64; 8]
    ensures { result ≡ map (ln binary64) x }
{
    math::lanes::ln::<F64>(x)
}
