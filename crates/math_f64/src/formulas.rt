// The formulas of one f64 lane, for code that is generic over the format.
ghost use Rattle.std.specs.Float.{binary64, nan};
ghost use Rattle.std.specs.Float.Ieee.{mul};
ghost use Rattle.floats.specs.patterns.Domains.{positive_normal, in_reach, has_root, is_u1, is_u2};
ghost use Rattle.math.specs.BoxMuller.{minus_twice};
ghost use Rattle.math.specs.Ln.{ln};
ghost use Rattle.math.specs.Sqrt.{sqrt};
ghost use Rattle.math.specs.Turns.{cos_turns, sin_turns};

use crate::{ln, sincos_turns, sqrt};
use floats::patterns;
use math::cos_sin::CosSin;
use math::formulas::Formulas;

pub struct F64;

impl Formulas for F64 {
    type Float = f64;

    ghost blank = { nan };

    ghost is_positive_normal = { positive_normal binary64 };

    ghost is_in_reach = { in_reach binary64 };

    ghost has_root = { has_root binary64 };

    ghost is_u1 = { is_u1 binary64 };

    ghost is_u2 = { is_u2 };

    ghost ln = { ln binary64 };

    ghost sqrt = { sqrt binary64 };

    ghost cos_turns = { cos_turns binary64 };

    ghost sin_turns = { sin_turns binary64 };

    ghost minus_twice = { minus_twice binary64 };

    ghost product = { mul binary64 };

    fn is_positive_normal(x: f64) -> bool {
        patterns::is_positive_normal_f64(x)
    }

    fn is_in_reach(t: f64) -> bool {
        (-1_099_511_627_776.0 < t) & (t < 1_099_511_627_776.0)
    }

    fn has_root(x: f64) -> bool {
        (x == 0.0) | patterns::is_positive_normal_f64(x)
    }

    fn is_u1(u: f64) -> bool {
        patterns::is_positive_normal_f64(u) & (u <= 1.0)
    }

    fn is_u2(u: f64) -> bool {
        (0.0 <= u) & (u < 1.0)
    }

    fn ln(x: f64) -> f64 {
        ln::lane(x)
    }

    fn sqrt(x: f64) -> f64 {
        sqrt::lane(x)
    }

    fn sincos_turns(t: f64) -> CosSin<f64> {
        sincos_turns::lane(t)
    }

    fn minus_twice(x: f64) -> f64 {
        x * -2.0
    }

    fn product(a: f64, b: f64) -> f64 {
        a * b
    }
}
