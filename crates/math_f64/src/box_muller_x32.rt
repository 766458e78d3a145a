// The Box-Muller transform of 32 pairs of f64 lanes, of any values, as math_f64::box_muller has it of eight. Short loops, each over all the
// lanes with a part of the formulas, keep several lanes' chains of dependent operations under way at once.
// A loop over three arrays or more goes by index: a zip of as many iterators is no plainer.
ghost use Rattle.std.specs.Prelude.{◌≡◌, length};
ghost use Rattle.std.specs.Float.{binary64};
ghost use Rattle.base.specs.Table.{table};
ghost use Rattle.base.specs.Zip.{zip_with};
ghost use Rattle.math.specs.BoxMuller.{minus_twice, cos_half, sin_half};
ghost use Rattle.math.specs.Sqrt.{sqrt};
ghost use Rattle.math.specs.Turns.{angle};
ghost use Rattle.math_f64.specs.ln.Parts.{parts_of, series_start, series_end};
ghost use Rattle.math_f64.specs.sincos_turns.Lanes.{sin_start, cos_start};
ghost use Rattle.math_f64.specs.box_muller_x32.Stages.{at, ended, cos_last, sin_last};

use crate::{ln, sincos_turns, sqrt};
use math::cos_sin::CosSin;

// A loop takes the arrays that it writes as slices: behind a reference the prover knows a slice's length, and not an array's.

// The first half of the logarithms.
fn ln_start(x: &[f64], s: &mut [f64], e: &mut [f64], p: &mut [f64])
    requires { (length x.now ≡ 32) × (length s.old ≡ 32) × (length e.old ≡ 32) × (length p.old ≡ 32) }
    ensures ratios { s.new ≡ table 32 (λ i. (parts_of (at x.now i)).s) }
    ensures exponents { e.new ≡ table 32 (λ i. (parts_of (at x.now i)).e) }
    ensures polynomials { p.new ≡ table 32 (λ i. series_start (parts_of (at x.now i)).s) }
{
    for i in 0..32 {
        let parts = ln::split(x[i]);
        s[i] = parts.s;
        e[i] = parts.e;
        p[i] = ln::series_start(parts.s);
    }
}

// The second half: p becomes -2 ln x.
fn ln_end(s: &[f64; 32], e: &[f64; 32], p: &mut [f64])
    requires { length p.old ≡ 32 }
    ensures { p.new ≡ table 32 (λ i. minus_twice binary64 (series_end (at s.now i) (at e.now i) (at p.old i))) }
{
    for i in 0..32 {
        p[i] = ln::series_end(s[i], e[i], p[i]) * -2.0;
    }
}

// math_f32::box_muller_x64 has a twin of this: one loop of one line, which a generic form with a length makes no plainer.
fn roots(v: &mut [f64])
    requires { length v.old ≡ 32 }
    ensures { v.new ≡ table 32 (λ i. sqrt binary64 (at v.old i)) }
{
    for x in v {
        *x = sqrt::lane(*x);
    }
}

// The first half of the sines and cosines.
fn turns_start(t: &[f64], th: &mut [f64], s: &mut [f64], c: &mut [f64])
    requires { (length t.now ≡ 32) × (length th.old ≡ 32) × (length s.old ≡ 32) × (length c.old ≡ 32) }
    ensures angles { th.new ≡ table 32 (λ i. angle binary64 (at t.now i)) }
    ensures sines { s.new ≡ table 32 (λ i. sin_start (angle binary64 (at t.now i))) }
    ensures cosines { c.new ≡ table 32 (λ i. cos_start (angle binary64 (at t.now i))) }
{
    for i in 0..32 {
        let a = sincos_turns::angle(t[i]);
        th[i] = a;
        s[i] = sincos_turns::sin_start(a);
        c[i] = sincos_turns::cos_start(a);
    }
}

// One lane's cosine and sine, from the polynomials of its angle as far as they were begun.
fn turn_end(t: f64, th: f64, s: f64, c: f64) -> CosSin<f64>
    ensures { result ≡ ended t th s c }
{
    let sin = sincos_turns::sin_end(th, s);
    let cos = sincos_turns::cos_end(th, c);
    sincos_turns::turned(t, sin, cos)
}

// The second half, and the products with the radius: s and c become the sine and the cosine halves.
fn turns_end(t: &[f64; 32], th: &[f64; 32], radius: &[f64; 32], s: &mut [f64], c: &mut [f64])
    requires { (length s.old ≡ 32) × (length c.old ≡ 32) }
    ensures sines { s.new ≡ table 32 (λ i. sin_last (at radius.now i) (at t.now i) (at th.now i) (at s.old i) (at c.old i)) }
    ensures cosines { c.new ≡ table 32 (λ i. cos_last (at radius.now i) (at t.now i) (at th.now i) (at s.old i) (at c.old i)) }
{
    for i in 0..32 {
        let one = turn_end(t[i], th[i], s[i], c[i]);
        let r = radius[i];
        s[i] = r * one.sin;
        c[i] = r * one.cos;
    }
}

// 32 lanes: the cosine halves and the sine halves, over whatever the two arrays held. On the way `sin` holds ratios and then polynomials, and
// `e` exponents and then angles: fewer arrays are faster.
pub fn lanes(u1: &[f64; 32], u2: &[f64; 32], cos: &mut [f64; 32], sin: &mut [f64; 32])
    ensures cosines { cos.new ≡ zip_with (cos_half binary64) u1.now u2.now }
    ensures sines { sin.new ≡ zip_with (sin_half binary64) u1.now u2.now }
{
    let mut e = [0.0f64; 32];
    let mut p = [0.0f64; 32];
    ln_start(u1, sin, &mut e, &mut p);
    ln_end(sin, &e, &mut p);
    roots(&mut p);
    turns_start(u2, &mut e, sin, cos);
    turns_end(u2, &e, &p, sin, cos);
}
