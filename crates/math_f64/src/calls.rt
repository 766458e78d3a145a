// The calls of math.rs on eight f64 lanes. They refuse arguments outside their domains; the formulas behind them take every value.
ghost use Rattle.std.specs.Prelude.{◌≡◌};
ghost use Rattle.std.specs.Float.{binary64};
ghost use Rattle.base.specs.Refusal.{answer_of};
ghost use Rattle.math.specs.Calls.{zeros, cos_sin_zeros, ln_call, sqrt_call, sincos_turns_call, box_muller_call};

use crate::formulas::F64;
use base::refusal::Refusal;
use math::calls;
use math::cos_sin::CosSin;

// Refuses if some argument isn't a positive normal.
pub fn ln_f64(x: [f64; 8]) -> Result<[f64; 8], Refusal>
    ensures { answer_of zeros result ≡ ln_call binary64 x }
{
    calls::ln::<F64>(x)
}

// Refuses if some turn is a NaN or has magnitude 2^40 or more.
pub fn sincos_turns_f64(t: [f64; 8]) -> Result<CosSin<[f64; 8]>, Refusal>
    ensures { answer_of cos_sin_zeros result ≡ sincos_turns_call binary64 t }
{
    calls::sincos_turns::<F64>(t)
}

// Refuses if some argument is neither a positive normal nor a zero of either sign.
pub fn sqrt_f64(x: [f64; 8]) -> Result<[f64; 8], Refusal>
    ensures { answer_of zeros result ≡ sqrt_call binary64 x }
{
    calls::sqrt::<F64>(x)
}

// Refuses if some u1 isn't normal in (0, 1], or some u2 isn't in [0, 1); -0.0 counts as 0.
pub fn box_muller_f64(u1: [f64; 8], u2: [f64; 8]) -> Result<CosSin<[f64; 8]>, Refusal>
    ensures { answer_of cos_sin_zeros result ≡ box_muller_call binary64 u1 u2 }
{
    calls::box_muller::<F64>(u1, u2)
}
