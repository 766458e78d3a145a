// The Box-Muller transform of eight pairs of f64 lanes (box_muller_f64 of the Rust's math.rs), of any values: r cos(2 pi u2) and
// r sin(2 pi u2) with r = sqrt(-2 ln u1). Each operation is rounded once, in the Rust's order.
ghost use Rattle.std.specs.Prelude.{◌≡◌};
ghost use Rattle.std.specs.Float.{binary64};
ghost use Rattle.math.specs.Lanes.{halves_of};

use crate::formulas::F64;
use math::cos_sin::CosSin;

// Eight lanes: the cosine and the sine halves side by side.
pub fn lanes(u1: [f64; 8], u2: [f64; 8]) -> CosSin<[f64; 8]>
    ensures { result ≡ halves_of binary64 u1 u2 }
{
    math::lanes::box_muller::<F64>(u1, u2)
}
