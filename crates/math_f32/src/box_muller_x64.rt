// The Box-Muller transform of 64 pairs of f32 lanes, of any values, as math_f32::box_muller has it of eight. Short loops, each over all the
// lanes with a part of the formulas, keep several lanes' chains of dependent operations under way at once.
// A loop over three arrays goes by index: a zip of as many iterators is no plainer.
ghost use Rattle.std.specs.Prelude.{◌≡◌, map, length, slice_index_or};
ghost use Rattle.std.specs.Float.{binary32, nan};
ghost use Rattle.std.specs.Float.Ieee.{mul};
ghost use Rattle.base.specs.Table.{table};
ghost use Rattle.base.specs.Zip.{zip_with};
ghost use Rattle.math.specs.BoxMuller.{minus_twice, radius, cos_half, sin_half};
ghost use Rattle.math.specs.Ln.{ln};
ghost use Rattle.math.specs.Sqrt.{sqrt};
ghost use Rattle.math.specs.Lanes.{lane_of};

use crate::{ln, sincos_turns, sqrt};

// u becomes -2 ln u.
fn logs(u: &mut [f32])
    requires { length u.old ≡ 64 }
    ensures { u.new ≡ table 64 (λ i. minus_twice binary32 (ln binary32 (slice_index_or u.old i nan))) }
{
    for x in u {
        *x = ln::lane(*x) * -2.0;
    }
}

// math_f64::box_muller_x32 has a twin of this: one loop of one line, which a generic form with a length makes no plainer.
fn roots(v: &mut [f32])
    requires { length v.old ≡ 64 }
    ensures { v.new ≡ table 64 (λ i. sqrt binary32 (slice_index_or v.old i nan)) }
{
    for x in v {
        *x = sqrt::lane(*x);
    }
}

// The turns s become the sine halves, with the radius r; c becomes the cosine halves.
fn turns(r: &[f32], c: &mut [f32], s: &mut [f32])
    requires { (length r.now ≡ 64) × (length c.old ≡ 64) × (length s.old ≡ 64) }
    ensures cosines { c.new ≡ table 64 (λ i. mul binary32 (slice_index_or r.now i nan) (lane_of binary32 (slice_index_or s.old i nan)).cos) }
    ensures sines { s.new ≡ table 64 (λ i. mul binary32 (slice_index_or r.now i nan) (lane_of binary32 (slice_index_or s.old i nan)).sin) }
{
    for i in 0..64 {
        let one = sincos_turns::lane(s[i]);
        c[i] = r[i] * one.cos;
        s[i] = r[i] * one.sin;
    }
}

// 64 lanes of u1 in u and of u2 in s: the cosine halves in c, over whatever it held, and the sine halves in s. u becomes the radii.
pub fn lanes(u: &mut [f32; 64], c: &mut [f32; 64], s: &mut [f32; 64])
    ensures radii { u.new ≡ map (radius binary32) u.old }
    ensures cosines { c.new ≡ zip_with (cos_half binary32) u.old s.old }
    ensures sines { s.new ≡ zip_with (sin_half binary32) u.old s.old }
{
    logs(u);
    roots(u);
    turns(u, c, s);
}
