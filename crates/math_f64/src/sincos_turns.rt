// The cosine and the sine of an f64 angle in turns (sincos_turns_f64 of the Rust's math.rs), of any values. Each operation is
// rounded once, in the Rust's order.
ghost use Rattle.std.specs.Prelude.{◌≡◌, ◌%◌, ◌==◌};
ghost use Rattle.std.specs.Float.{binary64};
ghost use Rattle.math.specs.Turns.{angle as angleOf, sign_of};
ghost use Rattle.math_f64.specs.sincos_turns.Lanes.{sin_start, sin_end, cos_start, cos_end, turned_of};
ghost use Rattle.math.specs.Lanes.{lane_of, turns_of};

use crate::formulas::F64;
use floats::patterns;
use math::cos_sin::CosSin;

const MAGIC: f64 = 6_755_399_441_055_744.0; // 1.5 * 2^52

const TAU: f64 = 6.28318530717958647692528676655900577;

// The sine of an angle, a polynomial, begun and ended: two functions for loops over many lanes, of which each does a part.
pub fn sin_start(th: f64) -> f64
    ensures { result ≡ sin_start th }
{
    let z = th * th;
    let mut ps = 1.0 / 355_687_428_096_000.0;
    ps = ps * z - 1.0 / 1_307_674_368_000.0;
    ps = ps * z + 1.0 / 6_227_020_800.0;
    ps = ps * z - 1.0 / 39_916_800.0;
    ps * z + 1.0 / 362_880.0
}

pub fn sin_end(th: f64, y: f64) -> f64
    ensures { result ≡ sin_end th y }
{
    let z = th * th;
    let mut ps = y * z - 1.0 / 5_040.0;
    ps = ps * z + 1.0 / 120.0;
    ps = ps * z - 1.0 / 6.0;
    ps = ps * z + 1.0;
    th * ps
}

// The cosine likewise.
pub fn cos_start(th: f64) -> f64
    ensures { result ≡ cos_start th }
{
    let z = th * th;
    let mut pc = 1.0 / 20_922_789_888_000.0;
    pc = pc * z - 1.0 / 87_178_291_200.0;
    pc = pc * z + 1.0 / 479_001_600.0;
    pc = pc * z - 1.0 / 3_628_800.0;
    pc * z + 1.0 / 40_320.0
}

pub fn cos_end(th: f64, y: f64) -> f64
    ensures { result ≡ cos_end th y }
{
    let z = th * th;
    let mut pc = y * z - 1.0 / 720.0;
    pc = pc * z + 1.0 / 24.0;
    pc = pc * z - 0.5;
    pc * z + 1.0
}

// sign has a twin in math_f32: a generic one would take the shift and the pattern from a trait, which is no plainer.
// 1.0, or -1.0 if n is odd, by its pattern: a product with it turns a sign and changes nothing else.
fn sign(n: u64) -> f64
    ensures { result ≡ sign_of (n % 2 == 1) }
{
    patterns::from_bits_f64((n << 63) | 0x3FF0_0000_0000_0000)
}

// The angle that is left of a turn without the quarter that it is nearest to.
pub fn angle(t: f64) -> f64
    ensures { result ≡ angleOf binary64 t }
{
    let w = 4.0 * t + MAGIC;
    (t - (w - MAGIC) * 0.25) * TAU
}

// A turn's cosine and sine from the sine and the cosine of the angle that is left.
pub fn turned(t: f64, s: f64, c: f64) -> CosSin<f64>
    ensures { result ≡ turned_of t s c }
{
    let w = 4.0 * t + MAGIC;
    let q = patterns::to_bits_f64(w) % 4;
    let swap = q % 2 == 1;
    let so = patterns::select(swap, c, s);
    let co = patterns::select(swap, s, c);
    let sin = so * sign(q / 2);
    let cos = co * sign((q + 1) / 2);
    CosSin { cos, sin }
}

pub fn lane(t: f64) -> CosSin<f64>
    ensures { result ≡ lane_of binary64 t }
{
    let th = angle(t);
    turned(t, sin_end(th, sin_start(th)), cos_end(th, cos_start(th)))
}

// Eight lanes.
pub fn lanes(t: [f64; 8]) -> CosSin<[f64; 8]>
    ensures { result ≡ turns_of binary64 t }
{
    math::lanes::sincos_turns::<F64>(t)
}
