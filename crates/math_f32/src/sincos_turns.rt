// The cosine and the sine of an f32 angle in turns (sincos_turns_f32 of the Rust's math.rs), of any values. Each operation is
// rounded once, in the Rust's order.
ghost use Rattle.std.specs.Prelude.{◌≡◌, ◌%◌, ◌==◌};
ghost use Rattle.std.specs.Float.{binary32};
ghost use Rattle.math.specs.Turns.{sin_poly, cos_poly, sign_of};
ghost use Rattle.math.specs.Lanes.{lane_of, turns_of};

use crate::formulas::F32;
use floats::patterns;
use math::cos_sin::CosSin;

const MAGIC: f32 = 12_582_912.0; // 1.5 * 2^23

const TAU: f32 = 6.28318530717958647692528676655900577;

fn sin_poly(th: f32) -> f32
    ensures { result ≡ sin_poly binary32 th }
{
    let z = th * th;
    th + th * z * (((-1.951_529_6e-4 * z) + 8.332_161e-3) * z - 1.666_665_5e-1)
}

fn cos_poly(th: f32) -> f32
    ensures { result ≡ cos_poly binary32 th }
{
    let z = th * th;
    1.0 - 0.5 * z + z * z * (((2.443_315_7e-5 * z) - 1.388_731_6e-3) * z + 4.166_664_6e-2)
}

// sign has a twin in math_f64: a generic one would take the shift and the pattern from a trait, which is no plainer.
// 1.0, or -1.0 if n is odd, by its pattern: a product with it turns a sign and changes nothing else.
fn sign(n: u32) -> f32
    ensures { result ≡ sign_of (n % 2 == 1) }
{
    patterns::from_bits_f32((n << 31) | 0x3F80_0000)
}

// The quarter q is the low two bits of w's pattern; an odd one swaps sine and cosine.
pub fn lane(t: f32) -> CosSin<f32>
    ensures { result ≡ lane_of binary32 t }
{
    let w = 4.0 * t + MAGIC;
    let th = (t - (w - MAGIC) * 0.25) * TAU;
    let s = sin_poly(th);
    let c = cos_poly(th);
    let q = patterns::to_bits_f32(w) % 4;
    let swap = q % 2 == 1;
    let so = patterns::select(swap, c, s);
    let co = patterns::select(swap, s, c);
    let sin = so * sign(q / 2);
    let cos = co * sign((q + 1) / 2);
    CosSin { cos, sin }
}

// Eight lanes.
pub fn lanes(t: [f32; 8]) -> CosSin<[f32; 8]>
    ensures { result ≡ turns_of binary32 t }
{
    math::lanes::sincos_turns::<F32>(t)
}
