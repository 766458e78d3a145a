// Fills of words of the Philox4x32-10: kind 1, and the words that the fills of the other kinds are made of.
ghost use Rattle.std.specs.Prelude.{◌≡◌, ◌*◌, ◌≤◌, min, length};
ghost use Rattle.base.specs.Engine.{DrawnAt};
ghost use Rattle.fills.specs.Fill.{Filled};
ghost use Rattle.fills.specs.Kinds.{u64s};
ghost use Rattle.philox.specs.x8.Machine.{label_of, engine};
ghost use Rattle.philox_fills.specs.Labelled.{LabelledFill};

use elements::engine::Made;
use philox::draws;
use philox::x8::{Label, Philox4x32X8};
use slices::put;

// The draws that a fill made, the label of the first (of the next draw, where it made none), and the generator after them.
#[derive(Clone, Copy)]
pub struct Fill {
    pub draws: u64,
    pub label: Label,
    pub rng: Philox4x32X8,
}

// A fill from `start` on, of the draws that were made for it.
pub(crate) fn labelled(start: Philox4x32X8, made: Made<Philox4x32X8>) -> Fill
    ensures { result ≡ record { draws = made.draws; label = label_of start; rng = made.rng } }
{
    let label = start.label();
    let rng = made.rng;
    Fill {
        draws: made.draws,
        label,
        rng,
    }
}

// Kind 1, draw by draw.
fn fill_u64_plain(g: Philox4x32X8, out: &mut [u64]) -> Made<Philox4x32X8>
    ensures { Filled engine u64s g out.old out.new result.draws result.rng }
{
    let mut rng = g;
    let mut draws: u64 = 0;
    let mut at = 0;
    while at < out.len() {
        let d = draws::draw(rng);
        let w = d.words;
        put::put(out, at, w);
        rng = d.rng;
        draws += 1;
        at += 8;
    }
    Made { draws, rng }
}

// Kind 1: the words. Many draws at once while two draws have room, and the rest draw by draw.
pub fn fill_u64(g: Philox4x32X8, out: &mut [u64]) -> Fill
    ensures { LabelledFill u64s g out.old out.new result }
{
    let label = g.label();
    let mut rng = g;
    let mut draws: u64 = 0;
    let mut at = 0;
    while 16 <= out.len() - at {
        let d = draws::draw_many(rng, out, at);
        rng = d.rng;
        draws += d.draws as u64;
        at += d.draws * 8;
    }
    if out.len() == at {
        return Fill { draws, label, rng };
    }
    let rest = fill_u64_plain(rng, &mut out[at..]);
    let last = rest.rng;
    Fill {
        draws: draws + rest.draws,
        label,
        rng: last,
    }
}

// The words of `m` draws, in the first places of `b`. The places after them stay.
fn fill_first(g: Philox4x32X8, b: &mut [u64], m: usize) -> Fill
    requires { m * 8 ≤ length b.old }
    ensures { DrawnAt engine g 0 m b.old b.new result.draws result.rng × (result.label ≡ label_of g) }
{
    let n = m * 8;
    fill_u64(g, &mut b[..n])
}

// The words of `m` draws, at most 16, in a buffer. The other kinds make their groups of it: drawing ahead is faster than turning each draw
// into elements at once.
pub fn fill_buffer(g: Philox4x32X8, b: &mut [u64; 128], m: usize) -> Fill
    ensures { DrawnAt engine g 0 (min 16 m) b.old b.new result.draws result.rng × (result.label ≡ label_of g) }
{
    fill_first(g, b, words::room(16, 0, m))
}
