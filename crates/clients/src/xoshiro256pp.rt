// A model on the eight-lane xoshiro256++.
ghost use Rattle.clients.specs.xoshiro256pp.Model.{Simulated};

use base::refusal::Refusal;
use xoshiro::x8::Xoshiro256ppX8;
use xoshiro_fills::fill_words::Fill;
use xoshiro_fills::{bytes, typed};

// What the model hands back besides its slices: the words of its last draw; all its draws; why the byte fill was refused, if it was; and
// the generator after it.
#[derive(Clone, Copy)]
pub struct Outcome {
    pub words: [u64; 8],
    pub draws: u64,
    pub refusal: Option<Refusal>,
    pub rng: Xoshiro256ppX8,
}

// From block `block` of `seed` on: units into `units`; a move by `n` blocks; the bytes of kind `kind` into `raw`; one draw.
pub fn simulate(
    seed: u64,
    block: u64,
    units: &mut [f64],
    n: u64,
    kind: u64,
    raw: &mut [u8],
) -> Outcome
    ensures { Simulated seed block n kind units.old units.new raw.old raw.new result }
{
    let start = Xoshiro256ppX8::from_seed_block(seed, block);
    let filled = typed::fill_f64(start.rng, units);
    let moved = filled.rng.jump_blocks(n);
    let written = bytes::fill_bytes(moved.rng, kind, raw);
    // a refused fill makes no draws and leaves the generator
    let rng = moved.rng;
    let made = written.unwrap_or(Fill { rng, draws: 0 });
    let last = made.rng.next_u64x8();
    let words = last.words;
    Outcome {
        words,
        draws: filled.draws + made.draws + 1,
        refusal: written.err(),
        rng: last.rng,
    }
}
