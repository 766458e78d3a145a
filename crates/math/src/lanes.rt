// The formulas of eight lanes, of any values, in either format.
// The loops go by index: `map` and `from_fn` were tried, and the proof of a closure that calls a trait's function didn't close.
ghost use Rattle.std.specs.Prelude.{◌≡◌, map};
ghost use Rattle.base.specs.Zip.{zip_with};

use crate::cos_sin::CosSin;
use crate::formulas::Formulas;

pub fn ln<M: Formulas>(x: [M::Float; 8]) -> [M::Float; 8]
    ensures { result ≡ map M.ln x }
{
    let mut y = x;
    for i in 0..8 {
        y[i] = M::ln(x[i]);
    }
    y
}

pub fn sqrt<M: Formulas>(x: [M::Float; 8]) -> [M::Float; 8]
    ensures { result ≡ map M.sqrt x }
{
    let mut y = x;
    for i in 0..8 {
        y[i] = M::sqrt(x[i]);
    }
    y
}

pub fn sincos_turns<M: Formulas>(t: [M::Float; 8]) -> CosSin<[M::Float; 8]>
    ensures cosines { result.cos ≡ map M.cos_turns t }
    ensures sines { result.sin ≡ map M.sin_turns t }
{
    let mut cos = t;
    let mut sin = t;
    for i in 0..8 {
        let one = M::sincos_turns(t[i]);
        cos[i] = one.cos;
        sin[i] = one.sin;
    }
    CosSin { cos, sin }
}

fn minus_twice<M: Formulas>(x: [M::Float; 8]) -> [M::Float; 8]
    ensures { result ≡ map M.minus_twice x }
{
    let mut y = x;
    for i in 0..8 {
        y[i] = M::minus_twice(x[i]);
    }
    y
}

fn products<M: Formulas>(a: [M::Float; 8], b: [M::Float; 8]) -> [M::Float; 8]
    ensures { result ≡ zip_with M.product a b }
{
    let mut c = a;
    for i in 0..8 {
        c[i] = M::product(a[i], b[i]);
    }
    c
}

// The Box-Muller transform of eight pairs: r cos(2 pi u2) and r sin(2 pi u2) with r = sqrt(-2 ln u1), the cosine and the sine halves side
// by side. Each operation is rounded once, in the Rust's order.
pub fn box_muller<M: Formulas>(u1: [M::Float; 8], u2: [M::Float; 8]) -> CosSin<[M::Float; 8]>
    ensures cosines { result.cos ≡ zip_with (λ u t. M.product (M.sqrt (M.minus_twice (M.ln u))) (M.cos_turns t)) u1 u2 }
    ensures sines { result.sin ≡ zip_with (λ u t. M.product (M.sqrt (M.minus_twice (M.ln u))) (M.sin_turns t)) u1 u2 }
{
    let radius = sqrt::<M>(minus_twice::<M>(ln::<M>(u1)));
    let turns = sincos_turns::<M>(u2);
    let cos = products::<M>(radius, turns.cos);
    let sin = products::<M>(radius, turns.sin);
    CosSin { cos, sin }
}
