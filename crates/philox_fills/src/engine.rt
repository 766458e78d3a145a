// Philox4x32-10 as an engine of fills, and its fills of any kind.
ghost use Rattle.fills.specs.Fill.{Filled};
ghost use Rattle.philox.proofs.x8.Theorems.{eight-words};
ghost use Rattle.philox.specs.x8.Machine.{engine as philox_engine};
ghost use Rattle.philox_fills.specs.Labelled.{LabelledFill};

use crate::fill_words;
use crate::fill_words::{Fill, labelled};
use elements::engine::{Drawn, Engine, Made};
use elements::fill;
use elements::group::{FromOne, FromTwo, Group};
use philox::draws;
use philox::x8::Philox4x32X8;

pub struct Philox;

impl Engine for Philox {
    type Rng = Philox4x32X8;

    ghost engine = { philox_engine };

    ghost eight_words = { eight-words };

    fn draw(g: Philox4x32X8) -> Drawn<Philox4x32X8> {
        let d = draws::draw(g);
        let words = d.words;
        let rng = d.rng;
        Drawn { words, rng }
    }

    fn fill_buffer(g: Philox4x32X8, b: &mut [u64; 128], m: usize) -> Made<Philox4x32X8> {
        let f = fill_words::fill_buffer(g, b, m);
        let rng = f.rng;
        Made {
            rng,
            draws: f.draws,
        }
    }
}

// Where groups take one draw: draw by draw, or by way of a buffer of draws, many of which are made at once. A buffer is worth its while from
// eight draws on.
pub(crate) fn singles<K: FromOne + Group>(g: Philox4x32X8, k: K, out: &mut [K::Element]) -> Fill
    ensures { LabelledFill (K.kind k) g out.old out.new result }
{
    if out.len() < 8 * k.places() {
        return labelled(g, fill::fill_plain::<Philox, K>(g, k, out));
    }
    labelled(g, fill::fill_ahead::<Philox, K>(g, k, out))
}

// The same where they take two.
pub(crate) fn pairs<K: FromTwo + Group>(g: Philox4x32X8, k: K, out: &mut [K::Element]) -> Fill
    ensures { LabelledFill (K.kind k) g out.old out.new result }
{
    if out.len() < 4 * k.places() {
        return labelled(g, fill::fill_pairs::<Philox, K>(g, k, out));
    }
    labelled(g, fill::fill_ahead::<Philox, K>(g, k, out))
}
