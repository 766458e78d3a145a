// Groups of a buffer of draws, several at a time where so many come next, and the others one by one.
ghost use Rattle.std.specs.Prelude.{◌≡◌, ◌+◌, ◌-◌, ◌*◌, ◌/◌, ◌<◌, ◌≤◌, length, drop};
ghost use Rattle.base.specs.Engine.{draw_of};
ghost use Rattle.base.specs.Stored.{stored};
ghost use Rattle.fills.specs.Buffer.{groups_ahead, stored_groups};

use elements::group::OfKind;
use elements::groups;

// A kind of which the groups of eight draws are made at a time.
pub trait Several: OfKind {
    // The groups of eight draws, from group `g` of the buffer on.
    fn put_several(self, out: &mut [Self::Element], at: usize, b: &[u64; 128], g: usize)
        requires { (g ≤ 8 / (Self.kind self).draws) × (at + (8 / (Self.kind self).draws - 1) * (Self.kind self).places < length out.old) }
        ensures { out.new ≡ stored_groups (Self.kind self) (drop ((Self.kind self).draws * g * 8) b.now) out.old at (8 / (Self.kind self).draws) };

    // Group `g` of the buffer.
    fn put_next(self, out: &mut [Self::Element], at: usize, b: &[u64; 128], g: usize)
        requires { g < 16 / (Self.kind self).draws }
        ensures { out.new ≡ stored out.old at ((Self.kind self).group (λ m. draw_of b.now ((Self.kind self).draws * g + m))) };
}

// The groups of the buffer `b` in the places from `at` on, as far as both go.
pub fn map_several<K: Several>(k: K, out: &mut [K::Element], at: usize, b: &[u64; 128])
    ensures { out.new ≡ stored_groups (K.kind k) b.now out.old at (groups_ahead (K.kind k) (length out.old - at)) }
{
    let w = k.places();
    let n = 8 / k.draws();
    let q = groups::groups_of(out.len(), at, w, k.most());
    for i in 0..q / n {
        k.put_several(out, at + i * n * w, b, i * n);
    }
    for j in q / n * n..q {
        k.put_next(out, at + j * w, b, j);
    }
}
