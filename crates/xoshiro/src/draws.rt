// Many draws of the eight-lane xoshiro256++ at once, straight into a slice: a loop of the eight-lane step and of stores, so that the 32 words
// of state stay in vector registers.
ghost use Rattle.std.specs.Prelude.{◌/◌, min, length};
ghost use Rattle.base.specs.Engine.{DrawnAt};
ghost use Rattle.xoshiro.specs.x8.Calls.{engine};

use crate::x8::Xoshiro256ppX8;
use slices::put;

// `m` draws, or as many as `out` has room for, their words one after another in the first places.
pub fn draw_many(g: Xoshiro256ppX8, out: &mut [u64], m: usize) -> Xoshiro256ppX8
    ensures { DrawnAt engine g 0 (min (length out.old / 8) m) out.old out.new (min (length out.old / 8) m) result }
{
    let n = words::room(out.len() / 8, 0, m);
    let mut rng = g;
    for j in 0..n {
        let d = rng.next_u64x8();
        let w = d.words;
        put::put(out, j * 8, w);
        rng = d.rng;
    }
    rng
}
