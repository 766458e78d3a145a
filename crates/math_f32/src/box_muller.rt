// The Box-Muller transform of eight pairs of f32 lanes (box_muller_f32 of the Rust's math.rs), of any values: r cos(2 pi u2) and
// r sin(2 pi u2) with r = sqrt(-2 ln u1). Each operation is rounded once, in the Rust's order.
ghost use Rattle.std.specs.Prelude.{◌≡◌};
ghost use Rattle.std.specs.Float.{binary32};
ghost use Rattle.math.specs.Lanes.{halves_of};

use crate::formulas::F32;
use math::cos_sin::CosSin;

// Eight lanes: the cosine and the sine halves side by side.
pub fn lanes(u1: [f32; 8], u2: [f32; 8]) -> CosSin<[f32; 8]>
    ensures { result ≡ halves_of binary32 u1 u2 }
{
    math::lanes::box_muller::<F32>(u1, u2)
}
