// Groups of the elements of a kind, or of their bytes, for code that is generic over the kinds: what such code knows of a kind, and its
// groups from a draw's words, from two draws', and from a buffer of draws.
ghost use Rattle.std.specs.Prelude.{List, ℕ, ◌≡◌, ◌-◌, ◌/◌, ◌<◌, ◌≤◌, length};
ghost use Rattle.base.specs.Stored.{stored};
ghost use Rattle.fills.specs.Buffer.{groups_ahead, stored_groups};
ghost use Rattle.fills.specs.Fill.{Kind};
ghost use Rattle.fills.proofs.Filling.{Sound};

use crate::groups;

// A row of the table of kinds, or the bytes of one.
pub trait OfKind: Copy {
    type Element: Copy;

    ghost kind: { Self → Kind Self.Element };

    // The places of a group.
    fn places(self) -> usize
        ensures are { result ≡ (kind self).places }
        ensures some { 8 ≤ result }
        ensures few { result ≤ 128 };

    // The draws of a group.
    fn draws(self) -> usize
        ensures are { result ≡ (kind self).draws }
        ensures some { 0 < result }
        ensures few { result ≤ 2 };

    // The groups that 16 draws make.
    fn most(self) -> usize
        ensures are { result ≡ 16 / (kind self).draws }
        ensures some { 1 ≤ result }
        ensures few { result ≤ 16 }
    {
        16 / self.draws()
    }

    ghost sound: { (k : Self) → Sound (kind k) };
}

// A kind whose groups take one draw.
pub trait FromOne: OfKind {
    // One group from the words of its draw in the places from `at` on, as far as `out` has them.
    fn put_group(self, out: &mut [Self::Element], at: usize, w: [u64; 8])
        ensures { out.new ≡ stored out.old at ((Self.kind self).group (λ _. w)) };

    ghost one_draw: { (k : Self) → (Self.kind k).draws ≡ 1 };
}

// A kind whose groups take two.
pub trait FromTwo: OfKind {
    ghost of_two: { Self → List ℕ → List ℕ → List Self.Element };

    // One group from the words of its draws in the places from `at` on, as far as `out` has them.
    fn put_pair(self, out: &mut [Self::Element], at: usize, a: [u64; 8], b: [u64; 8])
        ensures { out.new ≡ stored out.old at (of_two self a b) };

    ghost two_draws: { (k : Self) → (Self.kind k).draws ≡ 2 };

    ghost group_of_two: { (k : Self) (w : ℕ → List ℕ) → (Self.kind k).group w ≡ of_two k (w 0) (w 1) };
}

// A kind whose groups are made of a buffer of draws.
pub trait Group: OfKind {
    // The groups of the buffer `b` in the places from `at` on, as far as both go.
    fn map_groups(self, out: &mut [Self::Element], at: usize, b: &[u64; 128])
        ensures { out.new ≡ stored_groups (Self.kind self) b.now out.old at (groups_ahead (Self.kind self) (length out.old - at)) };
}

// The groups of the buffer `b` in the places from `at` on, as far as both go, one after another.
pub fn map_each<K: FromOne>(k: K, out: &mut [K::Element], at: usize, b: &[u64; 128])
    ensures { out.new ≡ stored_groups (K.kind k) b.now out.old at (groups_ahead (K.kind k) (length out.old - at)) }
{
    let w = k.places();
    let q = groups::groups_of(out.len(), at, w, 16);
    for j in 0..q {
        k.put_group(out, at + j * w, groups::draw_of(b, j));
    }
}
