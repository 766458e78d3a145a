// A model on Philox4x32-10.
ghost use Rattle.clients.specs.philox4x32.Model.{Simulated};

use base::refusal::Refusal;
use philox::x8::{Label, Philox4x32X8};
use philox_fills::fill_words::Fill;
use philox_fills::{bytes, typed};

// What the model hands back besides its slices: the words of its last draw, and their label; its draws since the seek; why the byte
// fill was refused, if it was; and the generator after it.
#[derive(Clone, Copy)]
pub struct Outcome {
    pub words: [u64; 8],
    pub label: Label,
    pub draws: u64,
    pub refusal: Option<Refusal>,
    pub rng: Philox4x32X8,
}

// On stream `stream` of `seed`: normals into `normals`; a seek to block `n`; the bytes of kind `kind` into `raw`; one draw.
pub fn simulate(
    seed: u64,
    stream: u64,
    normals: &mut [f64],
    n: u64,
    kind: u64,
    raw: &mut [u8],
) -> Outcome
    ensures { Simulated seed stream n kind normals.old normals.new raw.old raw.new result }
{
    let start = Philox4x32X8::new(seed, stream);
    let filled = typed::fill_normal_f64(start, normals);
    let found = filled.rng.seek(n);
    let written = bytes::fill_bytes(found, kind, raw);
    // a refused fill makes no draws and leaves the generator
    let label = Label {
        first: 0,
        upper: false,
    };
    let made = written.unwrap_or(Fill {
        draws: 0,
        label,
        rng: found,
    });
    let last = made.rng.next_u64x8();
    let words = last.words;
    Outcome {
        words,
        label: last.label,
        draws: made.draws + 1,
        refusal: written.err(),
        rng: last.rng,
    }
}
