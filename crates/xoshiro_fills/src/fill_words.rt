// Fills of words of the eight-lane xoshiro256++: kind 1, and the words that the fills of the other kinds are made of.
ghost use Rattle.std.specs.Prelude.{min};
ghost use Rattle.base.specs.Engine.{DrawnAt};
ghost use Rattle.fills.specs.Fill.{Filled};
ghost use Rattle.fills.specs.Kinds.{u64s};
ghost use Rattle.xoshiro.specs.x8.Calls.{engine};

use elements::groups;
use slices::put;
use xoshiro::draws;
use xoshiro::x8::Xoshiro256ppX8;

// The generator after a fill, and the draws that it made. (In this order: four words that are moved at once are then words of one row.)
#[derive(Clone, Copy)]
pub struct Fill {
    pub rng: Xoshiro256ppX8,
    pub draws: u64,
}

// Kind 1: the words.
pub fn fill_u64(g: Xoshiro256ppX8, out: &mut [u64]) -> Fill
    ensures { Filled engine u64s g out.old out.new result.draws result.rng }
{
    let m = groups::groups_in(out.len(), 8);
    let mut rng = g;
    for j in 0..m {
        let d = rng.next_u64x8();
        let w = d.words;
        put::put(out, j * 8, w);
        rng = d.rng;
    }
    Fill {
        rng,
        draws: m as u64,
    }
}

// The words of `m` draws, at most 16, in a buffer. The normals make their groups of it: many lanes at a time are faster than eight.
pub fn fill_buffer(g: Xoshiro256ppX8, b: &mut [u64; 128], m: usize) -> Fill
    ensures { DrawnAt engine g 0 (min 16 m) b.old b.new result.draws result.rng }
{
    let n = words::room(16, 0, m);
    let rng = draws::draw_many(g, b, n);
    Fill {
        rng,
        draws: n as u64,
    }
}
