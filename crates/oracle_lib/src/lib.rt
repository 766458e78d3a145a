// The float calls for a caller in C: the static library that tests/oracle links beside the Rust. Each answers the refusal's number,
// and leaves in the lent arrays what the call answers.
#![tactic(auto)]

ghost use Rattle.std.specs.Prelude.{◌≡◌};
ghost use Rattle.std.specs.Float.{binary32, binary64};
ghost use Rattle.std.specs.Float.Ieee.{to_bits};
ghost use Rattle.base.specs.Refusal.{answer_of};
ghost use Rattle.math.specs.Calls.{ln_call, sqrt_call, sincos_turns_call, box_muller_call};
ghost use Rattle.floats.specs.units.Unit.{unit, one_minus_unit, open01};

use base::refusal::Refusal;
use floats::{patterns, units};
use math::cos_sin::CosSin;

// Leaves in `out` what a call answers, or `blank` where it refuses, and answers 0 or the number of its refusal.
fn answered<V: Copy>(answer: Result<V, Refusal>, blank: V, out: &mut V) -> u64
    ensures { (result ≡ (answer_of blank answer).refusal) × (out.new ≡ (answer_of blank answer).value) }
{
    match answer {
        Ok(value) => {
            *out = value;
            0
        }
        Err(refusal) => {
            *out = blank;
            refusal.number()
        }
    }
}

#[unsafe(no_mangle)]
pub extern "C" fn oracle_ln_f32(x: &[f32; 8], out: &mut [f32; 8]) -> u64
    ensures { (result ≡ (ln_call binary32 x.now).refusal) × (out.new ≡ (ln_call binary32 x.now).value) }
{
    answered(math_f32::calls::ln_f32(*x), [0.0; 8], out)
}

#[unsafe(no_mangle)]
pub extern "C" fn oracle_sqrt_f32(x: &[f32; 8], out: &mut [f32; 8]) -> u64
    ensures { (result ≡ (sqrt_call binary32 x.now).refusal) × (out.new ≡ (sqrt_call binary32 x.now).value) }
{
    answered(math_f32::calls::sqrt_f32(*x), [0.0; 8], out)
}

#[unsafe(no_mangle)]
pub extern "C" fn oracle_sincos_turns_f32(
    t: &[f32; 8],
    cos: &mut [f32; 8],
    sin: &mut [f32; 8],
) -> u64
    ensures { (result ≡ (sincos_turns_call binary32 t.now).refusal) × (cos.new ≡ (sincos_turns_call binary32 t.now).value.cos) × (sin.new ≡ (sincos_turns_call binary32 t.now).value.sin) }
{
    let none = [0.0f32; 8];
    let blank = CosSin {
        cos: none,
        sin: none,
    };
    let mut value = blank;
    let number = answered(math_f32::calls::sincos_turns_f32(*t), blank, &mut value);
    let c = value.cos;
    let s = value.sin;
    *cos = c;
    *sin = s;
    number
}

#[unsafe(no_mangle)]
pub extern "C" fn oracle_box_muller_f32(
    u1: &[f32; 8],
    u2: &[f32; 8],
    cos: &mut [f32; 8],
    sin: &mut [f32; 8],
) -> u64
    ensures { (result ≡ (box_muller_call binary32 u1.now u2.now).refusal) × (cos.new ≡ (box_muller_call binary32 u1.now u2.now).value.cos) × (sin.new ≡ (box_muller_call binary32 u1.now u2.now).value.sin) }
{
    let none = [0.0f32; 8];
    let blank = CosSin {
        cos: none,
        sin: none,
    };
    let mut value = blank;
    let number = answered(math_f32::calls::box_muller_f32(*u1, *u2), blank, &mut value);
    let c = value.cos;
    let s = value.sin;
    *cos = c;
    *sin = s;
    number
}

// The patterns of a unit float, of 1 less it, and of the unit that is never 0.
#[unsafe(no_mangle)]
pub extern "C" fn oracle_unit_f32(x: u32) -> u32
    ensures { result ≡ to_bits binary32 (unit binary32 x) }
{
    patterns::to_bits_f32(units::u32_to_unit_f32(x))
}

#[unsafe(no_mangle)]
pub extern "C" fn oracle_one_minus_unit_f32(x: u32) -> u32
    ensures { result ≡ to_bits binary32 (one_minus_unit binary32 x) }
{
    patterns::to_bits_f32(units::one_minus_unit_f32(x))
}

#[unsafe(no_mangle)]
pub extern "C" fn oracle_open01_f32(x: u32) -> u32
    ensures { result ≡ to_bits binary32 (open01 binary32 x) }
{
    patterns::to_bits_f32(units::u32_to_open01_f32(x))
}

#[unsafe(no_mangle)]
pub extern "C" fn oracle_ln_f64(x: &[f64; 8], out: &mut [f64; 8]) -> u64
    ensures { (result ≡ (ln_call binary64 x.now).refusal) × (out.new ≡ (ln_call binary64 x.now).value) }
{
    answered(math_f64::calls::ln_f64(*x), [0.0; 8], out)
}

#[unsafe(no_mangle)]
pub extern "C" fn oracle_sqrt_f64(x: &[f64; 8], out: &mut [f64; 8]) -> u64
    ensures { (result ≡ (sqrt_call binary64 x.now).refusal) × (out.new ≡ (sqrt_call binary64 x.now).value) }
{
    answered(math_f64::calls::sqrt_f64(*x), [0.0; 8], out)
}

#[unsafe(no_mangle)]
pub extern "C" fn oracle_sincos_turns_f64(
    t: &[f64; 8],
    cos: &mut [f64; 8],
    sin: &mut [f64; 8],
) -> u64
    ensures { (result ≡ (sincos_turns_call binary64 t.now).refusal) × (cos.new ≡ (sincos_turns_call binary64 t.now).value.cos) × (sin.new ≡ (sincos_turns_call binary64 t.now).value.sin) }
{
    let none = [0.0f64; 8];
    let blank = CosSin {
        cos: none,
        sin: none,
    };
    let mut value = blank;
    let number = answered(math_f64::calls::sincos_turns_f64(*t), blank, &mut value);
    let c = value.cos;
    let s = value.sin;
    *cos = c;
    *sin = s;
    number
}

#[unsafe(no_mangle)]
pub extern "C" fn oracle_box_muller_f64(
    u1: &[f64; 8],
    u2: &[f64; 8],
    cos: &mut [f64; 8],
    sin: &mut [f64; 8],
) -> u64
    ensures { (result ≡ (box_muller_call binary64 u1.now u2.now).refusal) × (cos.new ≡ (box_muller_call binary64 u1.now u2.now).value.cos) × (sin.new ≡ (box_muller_call binary64 u1.now u2.now).value.sin) }
{
    let none = [0.0f64; 8];
    let blank = CosSin {
        cos: none,
        sin: none,
    };
    let mut value = blank;
    let number = answered(math_f64::calls::box_muller_f64(*u1, *u2), blank, &mut value);
    let c = value.cos;
    let s = value.sin;
    *cos = c;
    *sin = s;
    number
}

// The patterns of a unit float, of 1 less it, and of the unit that is never 0.
#[unsafe(no_mangle)]
pub extern "C" fn oracle_unit_f64(x: u64) -> u64
    ensures { result ≡ to_bits binary64 (unit binary64 x) }
{
    patterns::to_bits_f64(units::u64_to_unit_f64(x))
}

#[unsafe(no_mangle)]
pub extern "C" fn oracle_one_minus_unit_f64(x: u64) -> u64
    ensures { result ≡ to_bits binary64 (one_minus_unit binary64 x) }
{
    patterns::to_bits_f64(units::one_minus_unit_f64(x))
}

#[unsafe(no_mangle)]
pub extern "C" fn oracle_open01_f64(x: u64) -> u64
    ensures { result ≡ to_bits binary64 (open01 binary64 x) }
{
    patterns::to_bits_f64(units::u64_to_open01_f64(x))
}
