// Kind 6, normal f64 elements, and its bytes.
ghost use lib.Dec.{lit<};
ghost use Rattle.std.specs.Prelude.{map, refl, ◌++◌, ◌≡◌, ◌+◌, ◌-◌, ◌*◌, ◌<◌, ◌≤◌, length, get_or, drop};
ghost use Rattle.std.specs.Float.{binary64, nan};
ghost use Rattle.base.specs.Bytes.{flat};
ghost use Rattle.base.specs.Stored.{stored};
ghost use Rattle.base.specs.Table.{table};
ghost use Rattle.fills.proofs.Bytes.{bytes_sound};
ghost use Rattle.fills.proofs.Sounds.{normal_f64s_sound};
ghost use Rattle.fills.specs.Buffer.{bytes_kind, groups_ahead, stored_groups};
ghost use Rattle.fills.specs.FillBytes.{bytes_of};
ghost use Rattle.fills.specs.Kinds.{normals_of, normal_f64s};
ghost use Rattle.math.specs.Lanes.{halves_of};
ghost use Rattle.floats.specs.units.Unit.{unit, one_minus_unit};
ghost use Rattle.normals.specs.normal_f64s.Four.{rows};

use crate::several;
use crate::several::Several;
use elements::group::{FromTwo, Group, OfKind};
use elements::{f64s, groups};
use floats::units;
use math::cos_sin::CosSin;
use math_f64::{box_muller, box_muller_x32};
use slices::bytes;

// 1 less the unit of each of eight words.
fn one_minus_units_f64(w: [u64; 8]) -> [f64; 8]
    ensures { result ≡ map (one_minus_unit binary64) w }
{
    w.map(units::one_minus_unit_f64)
}

// Box-Muller of the words of two draws: u1 from the first, u2 from the second.
fn normals_f64(a: [u64; 8], b: [u64; 8]) -> CosSin<[f64; 8]>
    ensures { result ≡ halves_of binary64 (map (one_minus_unit binary64) a) (map (unit binary64) b) }
{
    let u1 = one_minus_units_f64(a);
    let u2 = f64s::units_f64(b);
    box_muller::lanes(u1, u2)
}

// One group from the words of its two draws: the cosine half, then the sine half.
fn put_group(out: &mut [f64], at: usize, a: [u64; 8], b: [u64; 8])
    ensures { out.new ≡ stored out.old at (normals_of binary64 a b) }
{
    if at < out.len() {
        let z = normals_f64(a, b);
        groups::put_halves(out, at, z.cos, z.sin);
    }
}

// The bytes of the two halves of a group.
fn bytes_of_halves(out: &mut [u8], at: usize, c: [f64; 8], s: [f64; 8])
    requires { at < length out.old }
    ensures { out.new ≡ stored out.old at (flat (bytes_of normal_f64s) (c ++ s)) }
{
    bytes::put_words(out, at, f64s::bits_f64(c));
    bytes::put_words(out, at + 64, f64s::bits_f64(s));
}

// The bytes of one group in the places from `at` on, as far as `out` has them.
fn put_bytes(out: &mut [u8], at: usize, a: [u64; 8], b: [u64; 8])
    ensures { out.new ≡ stored out.old at (flat (bytes_of normal_f64s) (normals_of binary64 a b)) }
{
    if out.len() <= at {
        return;
    }
    let z = normals_f64(a, b);
    bytes_of_halves(out, at, z.cos, z.sin);
}

// 1 less the units of the words of the first draws of four groups, from group `g` on.
fn four_u1(b: &[u64; 128], g: usize, x: &mut [f64])
    requires { (g ≤ 4) × (length x.old ≡ 32) }
    ensures { x.new ≡ table 32 (rows (one_minus_unit binary64) b.now (16 * g)) }
{
    for j in 0..4 {
        for l in 0..8 {
            x[8 * j + l] = units::one_minus_unit_f64(b[16 * (g + j) + l]);
        }
    }
}

// The units of the words of their second draws.
fn four_u2(b: &[u64; 128], g: usize, x: &mut [f64])
    requires { (g ≤ 4) × (length x.old ≡ 32) }
    ensures { x.new ≡ table 32 (rows (unit binary64) b.now (16 * g + 8)) }
{
    for j in 0..4 {
        for l in 0..8 {
            x[8 * j + l] = units::u64_to_unit_f64(b[16 * (g + j) + 8 + l]);
        }
    }
}

// Eight of 32 lanes.
fn eight_of(x: &[f64; 32], j: usize) -> [f64; 8]
    requires { j < 4 }
    ensures { result ≡ table 8 (λ k. get_or x.now (j * 8 + k) nan) }
{
    std::array::from_fn(|k| x[j * 8 + k])
}

// Four groups from group `g` of the buffer on: 32 lanes at a time are faster than eight.
fn write_four(out: &mut [f64], at: usize, b: &[u64; 128], g: usize)
    requires { (g ≤ 4) × (at + 48 < length out.old) }
    ensures { out.new ≡ stored_groups normal_f64s (drop (2 * g * 8) b.now) out.old at 4 }
{
    let mut u1 = [0.0f64; 32];
    let mut u2 = [0.0f64; 32];
    let mut c = [0.0f64; 32];
    let mut s = [0.0f64; 32];
    four_u1(b, g, &mut u1);
    four_u2(b, g, &mut u2);
    box_muller_x32::lanes(&u1, &u2, &mut c, &mut s);
    for j in 0..4 {
        groups::put_halves(out, at + j * 16, eight_of(&c, j), eight_of(&s, j));
    }
}

// The bytes of four groups from group `g` of the buffer on.
fn bytes_of_four(out: &mut [u8], at: usize, b: &[u64; 128], g: usize)
    requires { (g ≤ 4) × (at + 384 < length out.old) }
    ensures { out.new ≡ stored_groups (bytes_kind normal_f64s) (drop (2 * g * 8) b.now) out.old at 4 }
{
    let mut u1 = [0.0f64; 32];
    let mut u2 = [0.0f64; 32];
    let mut c = [0.0f64; 32];
    let mut s = [0.0f64; 32];
    four_u1(b, g, &mut u1);
    four_u2(b, g, &mut u2);
    box_muller_x32::lanes(&u1, &u2, &mut c, &mut s);
    for j in 0..4 {
        bytes_of_halves(out, at + j * 128, eight_of(&c, j), eight_of(&s, j));
    }
}

// Kind 6.
#[derive(Clone, Copy)]
pub struct NormalF64s;

impl OfKind for NormalF64s {
    type Element = f64;

    ghost kind = { λ _. normal_f64s };

    ghost sound = { λ _. normal_f64s_sound };

    fn places(self) -> usize {
        16
    }

    fn draws(self) -> usize {
        2
    }
}

impl FromTwo for NormalF64s {
    ghost of_two = { λ _. normals_of binary64 };

    ghost two_draws = { λ _. refl };

    ghost group_of_two = { λ _ w. refl };

    fn put_pair(self, out: &mut [f64], at: usize, a: [u64; 8], b: [u64; 8]) {
        put_group(out, at, a, b)
    }
}

impl Several for NormalF64s {
    fn put_several(self, out: &mut [f64], at: usize, b: &[u64; 128], g: usize) {
        write_four(out, at, b, g)
    }

    fn put_next(self, out: &mut [f64], at: usize, b: &[u64; 128], g: usize) {
        let first = groups::draw_of(b, 2 * g);
        let second = groups::draw_of(b, 2 * g + 1);
        put_group(out, at, first, second)
    }
}

impl Group for NormalF64s {
    fn map_groups(self, out: &mut [f64], at: usize, b: &[u64; 128]) {
        several::map_several(self, out, at, b)
    }
}

// Its bytes.
#[derive(Clone, Copy)]
pub struct NormalF64Bytes;

impl OfKind for NormalF64Bytes {
    type Element = u8;

    ghost kind = { λ _. bytes_kind normal_f64s };

    ghost sound = { λ _. bytes_sound normal_f64s normal_f64s_sound (lit< tt) };

    fn places(self) -> usize {
        128
    }

    fn draws(self) -> usize {
        2
    }
}

impl FromTwo for NormalF64Bytes {
    ghost of_two = { λ _. λ a b. flat (bytes_of normal_f64s) (normals_of binary64 a b) };

    ghost two_draws = { λ _. refl };

    ghost group_of_two = { λ _ w. refl };

    fn put_pair(self, out: &mut [u8], at: usize, a: [u64; 8], b: [u64; 8]) {
        put_bytes(out, at, a, b)
    }
}

impl Several for NormalF64Bytes {
    fn put_several(self, out: &mut [u8], at: usize, b: &[u64; 128], g: usize) {
        bytes_of_four(out, at, b, g)
    }

    fn put_next(self, out: &mut [u8], at: usize, b: &[u64; 128], g: usize) {
        let first = groups::draw_of(b, 2 * g);
        let second = groups::draw_of(b, 2 * g + 1);
        put_bytes(out, at, first, second)
    }
}

impl Group for NormalF64Bytes {
    fn map_groups(self, out: &mut [u8], at: usize, b: &[u64; 128]) {
        several::map_several(self, out, at, b)
    }
}
