// The formulas of one lane of floats, for code that is generic over their format.
ghost use Rattle.std.specs.Prelude.{◌≡◌, Bool};

use crate::cos_sin::CosSin;

pub trait Formulas {
    type Float: Copy;

    // Some float: what stands outside of an array in the proofs.
    ghost blank: { Self.Float };

    // Which arguments the calls accept.
    ghost is_positive_normal: { Self.Float → Bool };

    ghost is_in_reach: { Self.Float → Bool };

    ghost has_root: { Self.Float → Bool };

    ghost is_u1: { Self.Float → Bool };

    ghost is_u2: { Self.Float → Bool };

    // What the formulas give.
    ghost ln: { Self.Float → Self.Float };

    ghost sqrt: { Self.Float → Self.Float };

    ghost cos_turns: { Self.Float → Self.Float };

    ghost sin_turns: { Self.Float → Self.Float };

    ghost minus_twice: { Self.Float → Self.Float };

    ghost product: { Self.Float → Self.Float → Self.Float };

    fn is_positive_normal(x: Self::Float) -> bool
        ensures { result ≡ is_positive_normal x };

    fn is_in_reach(t: Self::Float) -> bool
        ensures { result ≡ is_in_reach t };

    fn has_root(x: Self::Float) -> bool
        ensures { result ≡ has_root x };

    fn is_u1(u: Self::Float) -> bool
        ensures { result ≡ is_u1 u };

    fn is_u2(u: Self::Float) -> bool
        ensures { result ≡ is_u2 u };

    fn ln(x: Self::Float) -> Self::Float
        ensures { result ≡ ln x };

    fn sqrt(x: Self::Float) -> Self::Float
        ensures { result ≡ sqrt x };

    fn sincos_turns(t: Self::Float) -> CosSin<Self::Float>
        ensures cosine { result.cos ≡ cos_turns t }
        ensures sine { result.sin ≡ sin_turns t };

    fn minus_twice(x: Self::Float) -> Self::Float
        ensures { result ≡ minus_twice x };

    fn product(a: Self::Float, b: Self::Float) -> Self::Float
        ensures { result ≡ product a b };
}
