// The calls of math.rs on eight f32 lanes. They refuse arguments outside their domains; the formulas behind them take every value.
ghost use Rattle.std.specs.Prelude.{◌≡◌};
ghost use Rattle.std.specs.Float.{binary32};
ghost use Rattle.base.specs.Refusal.{answer_of};
ghost use Rattle.math.specs.Calls.{zeros, cos_sin_zeros, ln_call, sqrt_call, sincos_turns_call, box_muller_call};

use crate::formulas::F32;
use base::refusal::Refusal;
use math::calls;
use math::cos_sin::CosSin;

// Refuses if some argument isn't a positive normal.
pub fn ln_f32(x: [f32; 8]) -> Result<[f32; 8], Refusal>
    ensures { answer_of zeros result ≡ ln_call binary32 x }
{
    calls::ln::<F32>(x)
}

// Refuses if some turn is a NaN or has magnitude 2^20 or more.
pub fn sincos_turns_f32(t: [f32; 8]) -> Result<CosSin<[f32; 8]>, Refusal>
    ensures { answer_of cos_sin_zeros result ≡ sincos_turns_call binary32 t }
{
    calls::sincos_turns::<F32>(t)
}

// Refuses if some argument is neither a positive normal nor a zero of either sign.
pub fn sqrt_f32(x: [f32; 8]) -> Result<[f32; 8], Refusal>
    ensures { answer_of zeros result ≡ sqrt_call binary32 x }
{
    calls::sqrt::<F32>(x)
}

// Refuses if some u1 isn't normal in (0, 1], or some u2 isn't in [0, 1); -0.0 counts as 0.
pub fn box_muller_f32(u1: [f32; 8], u2: [f32; 8]) -> Result<CosSin<[f32; 8]>, Refusal>
    ensures { answer_of cos_sin_zeros result ≡ box_muller_call binary32 u1 u2 }
{
    calls::box_muller::<F32>(u1, u2)
}
