// Kind 5, normal f32 elements, and its bytes.
ghost use lib.Dec.{lit<};
ghost use Rattle.std.specs.Prelude.{map, refl, ◌≡◌, ◌+◌, ◌-◌, ◌*◌, ◌/◌, ◌%◌, ◌^◌, ◌<◌, ◌≤◌, length, get_or, drop};
ghost use Rattle.std.specs.Float.{binary32, nan};
ghost use Rattle.base.specs.Stored.{stored};
ghost use Rattle.base.specs.Table.{table};
ghost use Rattle.fills.proofs.Bytes.{bytes_sound};
ghost use Rattle.fills.proofs.Sounds.{normal_f32s_sound};
ghost use Rattle.fills.specs.Buffer.{bytes_kind, groups_ahead, stored_groups};
ghost use Rattle.fills.specs.Kinds.{lows, highs, normal_f32s};
ghost use Rattle.math.specs.Lanes.{halves_of};
ghost use Rattle.floats.specs.units.Unit.{unit, one_minus_unit};

use crate::several;
use crate::several::Several;
use elements::group::{FromOne, Group, OfKind};
use elements::{f32s, groups};
use floats::units;
use math::cos_sin::CosSin;
use math_f32::{box_muller, box_muller_x64};
use slices::bytes;

// 1 less the unit of each of eight halves.
fn one_minus_units_f32(h: [u32; 8]) -> [f32; 8]
    ensures { result ≡ map (one_minus_unit binary32) h }
{
    h.map(units::one_minus_unit_f32)
}

// Box-Muller of eight words: u1 from the low half, u2 from the high half of each.
fn normals_f32(w: [u64; 8]) -> CosSin<[f32; 8]>
    ensures { result ≡ halves_of binary32 (map (one_minus_unit binary32) (lows w)) (map (unit binary32) (highs w)) }
{
    let u1 = one_minus_units_f32(groups::lows(w));
    let u2 = f32s::units_f32(groups::highs(w));
    box_muller::lanes(u1, u2)
}

// One group from the words of its draw: the cosine half, then the sine half.
fn put_group(out: &mut [f32], at: usize, w: [u64; 8])
    ensures { out.new ≡ stored out.old at (normal_f32s.group (λ _. w)) }
{
    if at < out.len() {
        let z = normals_f32(w);
        groups::put_halves(out, at, z.cos, z.sin);
    }
}

// Its bytes.
fn put_bytes(out: &mut [u8], at: usize, w: [u64; 8])
    ensures { out.new ≡ stored out.old at ((bytes_kind normal_f32s).group (λ _. w)) }
{
    let z = normals_f32(w);
    bytes::put_halves(out, at, f32s::bits_f32(z.cos), f32s::bits_f32(z.sin));
}

// The words of eight groups from group `g` of the buffer on: 1 less the units of their low halves, and the units of their high halves.
fn eight_u(b: &[u64; 128], g: usize, u1: &mut [f32], u2: &mut [f32])
    requires { (g ≤ 8) × (length u1.old ≡ 64) × (length u2.old ≡ 64) }
    ensures first { u1.new ≡ table 64 (λ k. one_minus_unit binary32 (get_or b.now (8 * g + k) 0 % 2 ^ 32)) }
    ensures second { u2.new ≡ table 64 (λ k. unit binary32 (get_or b.now (8 * g + k) 0 / 2 ^ 32)) }
{
    for i in 0..64 {
        let w = b[8 * g + i];
        u1[i] = units::one_minus_unit_f32(words::low(w));
        u2[i] = units::u32_to_unit_f32(words::high(w));
    }
}

// Eight of 64 lanes.
fn eight_of(x: &[f32; 64], j: usize) -> [f32; 8]
    requires { j < 8 }
    ensures { result ≡ table 8 (λ k. get_or x.now (j * 8 + k) nan) }
{
    std::array::from_fn(|k| x[j * 8 + k])
}

// Eight groups from group `g` of the buffer on: 64 lanes at a time are faster than eight.
fn write_eight(out: &mut [f32], at: usize, b: &[u64; 128], g: usize)
    requires { (g ≤ 8) × (at + 112 < length out.old) }
    ensures { out.new ≡ stored_groups normal_f32s (drop (1 * g * 8) b.now) out.old at 8 }
{
    let mut u = [0.0f32; 64];
    let mut c = [0.0f32; 64];
    let mut s = [0.0f32; 64];
    eight_u(b, g, &mut u, &mut s);
    box_muller_x64::lanes(&mut u, &mut c, &mut s);
    for j in 0..8 {
        groups::put_halves(out, at + j * 16, eight_of(&c, j), eight_of(&s, j));
    }
}

// The bytes of eight groups from group `g` of the buffer on.
fn bytes_of_eight(out: &mut [u8], at: usize, b: &[u64; 128], g: usize)
    requires { (g ≤ 8) × (at + 448 < length out.old) }
    ensures { out.new ≡ stored_groups (bytes_kind normal_f32s) (drop (1 * g * 8) b.now) out.old at 8 }
{
    let mut u = [0.0f32; 64];
    let mut c = [0.0f32; 64];
    let mut s = [0.0f32; 64];
    eight_u(b, g, &mut u, &mut s);
    box_muller_x64::lanes(&mut u, &mut c, &mut s);
    for j in 0..8 {
        let lo = f32s::bits_f32(eight_of(&c, j));
        let hi = f32s::bits_f32(eight_of(&s, j));
        bytes::put_halves(out, at + j * 64, lo, hi);
    }
}

// Kind 5.
#[derive(Clone, Copy)]
pub struct NormalF32s;

impl OfKind for NormalF32s {
    type Element = f32;

    ghost kind = { λ _. normal_f32s };

    ghost sound = { λ _. normal_f32s_sound };

    fn places(self) -> usize {
        16
    }

    fn draws(self) -> usize {
        1
    }
}

impl FromOne for NormalF32s {
    ghost one_draw = { λ _. refl };

    fn put_group(self, out: &mut [f32], at: usize, w: [u64; 8]) {
        put_group(out, at, w)
    }
}

impl Several for NormalF32s {
    fn put_several(self, out: &mut [f32], at: usize, b: &[u64; 128], g: usize) {
        write_eight(out, at, b, g)
    }

    fn put_next(self, out: &mut [f32], at: usize, b: &[u64; 128], g: usize) {
        put_group(out, at, groups::draw_of(b, g))
    }
}

impl Group for NormalF32s {
    fn map_groups(self, out: &mut [f32], at: usize, b: &[u64; 128]) {
        several::map_several(self, out, at, b)
    }
}

// Its bytes.
#[derive(Clone, Copy)]
pub struct NormalF32Bytes;

impl OfKind for NormalF32Bytes {
    type Element = u8;

    ghost kind = { λ _. bytes_kind normal_f32s };

    ghost sound = { λ _. bytes_sound normal_f32s normal_f32s_sound (lit< tt) };

    fn places(self) -> usize {
        64
    }

    fn draws(self) -> usize {
        1
    }
}

impl FromOne for NormalF32Bytes {
    ghost one_draw = { λ _. refl };

    fn put_group(self, out: &mut [u8], at: usize, w: [u64; 8]) {
        put_bytes(out, at, w)
    }
}

impl Several for NormalF32Bytes {
    fn put_several(self, out: &mut [u8], at: usize, b: &[u64; 128], g: usize) {
        bytes_of_eight(out, at, b, g)
    }

    fn put_next(self, out: &mut [u8], at: usize, b: &[u64; 128], g: usize) {
        put_bytes(out, at, groups::draw_of(b, g))
    }
}

impl Group for NormalF32Bytes {
    fn map_groups(self, out: &mut [u8], at: usize, b: &[u64; 128]) {
        several::map_several(self, out, at, b)
    }
}
