// The eight-lane xoshiro256++ as an engine of fills, and its fills of any kind.
ghost use Rattle.std.specs.Prelude.{◌≡◌};
ghost use Rattle.fills.specs.Fill.{Filled};
ghost use Rattle.xoshiro.proofs.x8.Theorems.{eight-words};
ghost use Rattle.xoshiro.specs.x8.Calls.{engine as xoshiro_engine};

use crate::fill_words;
use crate::fill_words::Fill;
use elements::engine::{Drawn, Engine, Made};
use elements::fill;
use elements::group::{FromOne, FromTwo, Group};
use xoshiro::x8::Xoshiro256ppX8;

pub struct Xoshiro;

impl Engine for Xoshiro {
    type Rng = Xoshiro256ppX8;

    ghost engine = { xoshiro_engine };

    ghost eight_words = { eight-words };

    fn draw(g: Xoshiro256ppX8) -> Drawn<Xoshiro256ppX8> {
        let d = g.next_u64x8();
        let words = d.words;
        let rng = d.rng;
        Drawn { words, rng }
    }

    fn fill_buffer(g: Xoshiro256ppX8, b: &mut [u64; 128], m: usize) -> Made<Xoshiro256ppX8> {
        let f = fill_words::fill_buffer(g, b, m);
        Made {
            rng: f.rng,
            draws: f.draws,
        }
    }
}

impl From<Made<Xoshiro256ppX8>> for Fill {
    ghost from_gives = { λ m f. (f.rng ≡ m.rng) × (f.draws ≡ m.draws) };

    fn from(made: Made<Xoshiro256ppX8>) -> Fill {
        Fill {
            rng: made.rng,
            draws: made.draws,
        }
    }
}

// Draw by draw, each of them a group.
pub(crate) fn plain<K: FromOne>(g: Xoshiro256ppX8, k: K, out: &mut [K::Element]) -> Fill
    ensures { Filled xoshiro_engine (K.kind k) g out.old out.new result.draws result.rng }
{
    fill::fill_plain::<Xoshiro, K>(g, k, out).into()
}

// Draw by draw, two of them a group.
pub(crate) fn pairs<K: FromTwo>(g: Xoshiro256ppX8, k: K, out: &mut [K::Element]) -> Fill
    ensures { Filled xoshiro_engine (K.kind k) g out.old out.new result.draws result.rng }
{
    fill::fill_pairs::<Xoshiro, K>(g, k, out).into()
}

// By way of a buffer of draws: many lanes of normals at a time are faster than eight.
pub(crate) fn ahead<K: Group>(g: Xoshiro256ppX8, k: K, out: &mut [K::Element]) -> Fill
    ensures { Filled xoshiro_engine (K.kind k) g out.old out.new result.draws result.rng }
{
    fill::fill_ahead::<Xoshiro, K>(g, k, out).into()
}
