// The formulas of one f32 lane, for code that is generic over the format.
ghost use Rattle.std.specs.Float.{binary32, nan};
ghost use Rattle.std.specs.Float.Ieee.{mul};
ghost use Rattle.floats.specs.patterns.Domains.{positive_normal, in_reach, has_root, is_u1, is_u2};
ghost use Rattle.math.specs.BoxMuller.{minus_twice};
ghost use Rattle.math.specs.Ln.{ln};
ghost use Rattle.math.specs.Sqrt.{sqrt};
ghost use Rattle.math.specs.Turns.{cos_turns, sin_turns};

use crate::{ln, sincos_turns, sqrt};
use floats::patterns;
use math::cos_sin::CosSin;
use math::formulas::Formulas;

pub struct F32;

impl Formulas for F32 {
    type Float = f32;

    ghost blank = { nan };

    ghost is_positive_normal = { positive_normal binary32 };

    ghost is_in_reach = { in_reach binary32 };

    ghost has_root = { has_root binary32 };

    ghost is_u1 = { is_u1 binary32 };

    ghost is_u2 = { is_u2 };

    ghost ln = { ln binary32 };

    ghost sqrt = { sqrt binary32 };

    ghost cos_turns = { cos_turns binary32 };

    ghost sin_turns = { sin_turns binary32 };

    ghost minus_twice = { minus_twice binary32 };

    ghost product = { mul binary32 };

    fn is_positive_normal(x: f32) -> bool {
        patterns::is_positive_normal_f32(x)
    }

    fn is_in_reach(t: f32) -> bool {
        (-1_048_576.0 < t) & (t < 1_048_576.0)
    }

    fn has_root(x: f32) -> bool {
        (x == 0.0) | patterns::is_positive_normal_f32(x)
    }

    fn is_u1(u: f32) -> bool {
        patterns::is_positive_normal_f32(u) & (u <= 1.0)
    }

    fn is_u2(u: f32) -> bool {
        (0.0 <= u) & (u < 1.0)
    }

    fn ln(x: f32) -> f32 {
        ln::lane(x)
    }

    fn sqrt(x: f32) -> f32 {
        sqrt::lane(x)
    }

    fn sincos_turns(t: f32) -> CosSin<f32> {
        sincos_turns::lane(t)
    }

    fn minus_twice(x: f32) -> f32 {
        x * -2.0
    }

    fn product(a: f32, b: f32) -> f32 {
        a * b
    }
}
