// The calls of math.rs on eight lanes, in either format. They refuse arguments outside their domains; the formulas behind them take every
// value. Each contract is of every value that may stand for the answer of a refused call.
ghost use Rattle.std.specs.Prelude.{◌≡◌, ◌&&◌, List, map};
ghost use Rattle.base.specs.Every.{every};
ghost use Rattle.base.specs.Refusal.{answer_of};
ghost use Rattle.base.specs.Zip.{zip_with};
ghost use Rattle.math.specs.Calls.{answer};
ghost use Rattle.math.specs.declared.cos_sin.CosSin.{CosSin};

use crate::cos_sin::CosSin;
use crate::formulas::Formulas;
use crate::lanes;
use base::refusal::Refusal;

fn all_positive_normal<M: Formulas>(x: [M::Float; 8]) -> bool
    ensures { result ≡ every M.is_positive_normal x }
{
    x.iter().all(|v| M::is_positive_normal(*v))
}

// Refuses if some argument isn't a positive normal.
pub fn ln<M: Formulas>(x: [M::Float; 8]) -> Result<[M::Float; 8], Refusal>
    ensures { (blank : List M.Float) → answer_of blank result ≡ answer blank (every M.is_positive_normal x) 7 (map M.ln x) }
{
    if !all_positive_normal::<M>(x) {
        return Err(Refusal::LnDomain);
    }
    Ok(lanes::ln::<M>(x))
}

fn all_in_reach<M: Formulas>(t: [M::Float; 8]) -> bool
    ensures { result ≡ every M.is_in_reach t }
{
    t.iter().all(|v| M::is_in_reach(*v))
}

// Refuses if some turn is a NaN or too large.
pub fn sincos_turns<M: Formulas>(t: [M::Float; 8]) -> Result<CosSin<[M::Float; 8]>, Refusal>
    ensures { (blank : CosSin (List M.Float)) → answer_of blank result ≡
        answer blank (every M.is_in_reach t) 8 (record { cos = map M.cos_turns t; sin = map M.sin_turns t }) }
{
    if !all_in_reach::<M>(t) {
        return Err(Refusal::TurnsDomain);
    }
    Ok(lanes::sincos_turns::<M>(t))
}

fn all_have_root<M: Formulas>(x: [M::Float; 8]) -> bool
    ensures { result ≡ every M.has_root x }
{
    // every lane is looked at: tests that stop at the first would be eight branches, which take longer than a root
    x.iter().fold(true, |all, v| all & M::has_root(*v))
}

// Refuses if some argument is neither a positive normal nor a zero of either sign.
pub fn sqrt<M: Formulas>(x: [M::Float; 8]) -> Result<[M::Float; 8], Refusal>
    ensures { (blank : List M.Float) → answer_of blank result ≡ answer blank (every M.has_root x) 9 (map M.sqrt x) }
{
    if !all_have_root::<M>(x) {
        return Err(Refusal::SqrtDomain);
    }
    Ok(lanes::sqrt::<M>(x))
}

fn all_u1<M: Formulas>(u: [M::Float; 8]) -> bool
    ensures { result ≡ every M.is_u1 u }
{
    u.iter().all(|v| M::is_u1(*v))
}

fn all_u2<M: Formulas>(u: [M::Float; 8]) -> bool
    ensures { result ≡ every M.is_u2 u }
{
    u.iter().all(|v| M::is_u2(*v))
}

// Refuses if some u1 isn't normal in (0, 1], or some u2 isn't in [0, 1); -0.0 counts as 0.
pub fn box_muller<M: Formulas>(
    u1: [M::Float; 8],
    u2: [M::Float; 8],
) -> Result<CosSin<[M::Float; 8]>, Refusal>
    ensures { (blank : CosSin (List M.Float)) → answer_of blank result ≡
        answer blank (every M.is_u1 u1 && every M.is_u2 u2) 10
        (record {
          cos = zip_with (λ u t. M.product (M.sqrt (M.minus_twice (M.ln u))) (M.cos_turns t)) u1 u2;
          sin = zip_with (λ u t. M.product (M.sqrt (M.minus_twice (M.ln u))) (M.sin_turns t)) u1 u2;
        }) }
{
    if !(all_u1::<M>(u1) & all_u2::<M>(u2)) {
        return Err(Refusal::BoxMullerDomain);
    }
    Ok(lanes::box_muller::<M>(u1, u2))
}
