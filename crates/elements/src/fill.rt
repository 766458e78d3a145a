// Fills of any kind on any engine: the generator after them, and their draws. What the last group has over is dropped.
ghost use Rattle.std.specs.Prelude.{◌≡◌};
ghost use Rattle.fills.specs.Fill.{Filled};

use crate::engine::{Engine, Made};
use crate::group::{FromOne, FromTwo, Group};
use crate::groups;

// Draw by draw, each of them a group.
pub fn fill_plain<E: Engine, K: FromOne>(g: E::Rng, k: K, out: &mut [K::Element]) -> Made<E::Rng>
    ensures { Filled E.engine (K.kind k) g out.old out.new result.draws result.rng }
{
    let m = groups::groups_in(out.len(), k.places());
    let mut rng = g;
    for j in 0..m {
        let d = E::draw(rng);
        k.put_group(out, j * k.places(), d.words);
        rng = d.rng;
    }
    Made {
        rng,
        draws: m as u64,
    }
}

// Two draws a group.
pub fn fill_pairs<E: Engine, K: FromTwo>(g: E::Rng, k: K, out: &mut [K::Element]) -> Made<E::Rng>
    ensures { Filled E.engine (K.kind k) g out.old out.new result.draws result.rng }
{
    let m = groups::groups_in(out.len(), k.places());
    let mut rng = g;
    for j in 0..m {
        let a = E::draw(rng);
        let b = E::draw(a.rng);
        k.put_pair(out, j * k.places(), a.words, b.words);
        rng = b.rng;
    }
    Made {
        rng,
        draws: 2 * m as u64,
    }
}

// By way of a buffer of draws, many of which are made at once.
pub fn fill_ahead<E: Engine, K: Group>(g: E::Rng, k: K, out: &mut [K::Element]) -> Made<E::Rng>
    ensures { Filled E.engine (K.kind k) g out.old out.new result.draws result.rng }
{
    let m = groups::groups_in(out.len(), k.places());
    let mut rng = g;
    let mut j = 0;
    let mut buf = [0u64; 128];
    while j < m {
        let q = (m - j).min(k.most());
        let f = E::fill_buffer(rng, &mut buf, k.draws() * q);
        k.map_groups(out, j * k.places(), &buf);
        rng = f.rng;
        j += q;
    }
    Made {
        rng,
        draws: (k.draws() * m) as u64,
    }
}
