// Kind 3, the units of kind 2, and its bytes.
ghost use Rattle.std.specs.Prelude.{map, ◌≡◌, refl};
ghost use Rattle.std.specs.Float.{binary32};
ghost use Rattle.std.specs.Float.Ieee.{to_bits};
ghost use lib.Dec.{lit<};
ghost use Rattle.fills.proofs.Bytes.{bytes_sound};
ghost use Rattle.fills.proofs.Sounds.{f32s_sound};
ghost use Rattle.fills.specs.Buffer.{bytes_kind};
ghost use Rattle.fills.specs.Kinds.{f32s};
ghost use Rattle.floats.specs.units.Unit.{unit};

use crate::group::{FromOne, Group, OfKind};
use crate::{group, groups};
use floats::{patterns, units};
use slices::bytes;

// The units of eight halves.
pub fn units_f32(h: [u32; 8]) -> [f32; 8]
    ensures { result ≡ map (unit binary32) h }
{
    h.map(units::u32_to_unit_f32)
}

// The patterns of eight floats.
pub fn bits_f32(v: [f32; 8]) -> [u32; 8]
    ensures { result ≡ map (to_bits binary32) v }
{
    v.map(patterns::to_bits_f32)
}

// Kind 3.
#[derive(Clone, Copy)]
pub struct F32s;

impl OfKind for F32s {
    type Element = f32;

    ghost kind = { λ _. f32s };

    ghost sound = { λ _. f32s_sound };

    fn places(self) -> usize {
        16
    }

    fn draws(self) -> usize {
        1
    }
}

impl FromOne for F32s {
    ghost one_draw = { λ _. refl };

    fn put_group(self, out: &mut [f32], at: usize, w: [u64; 8]) {
        let lo = units_f32(groups::lows(w));
        let hi = units_f32(groups::highs(w));
        groups::put_halves(out, at, lo, hi);
    }
}

impl Group for F32s {
    fn map_groups(self, out: &mut [f32], at: usize, b: &[u64; 128]) {
        group::map_each(self, out, at, b)
    }
}

// Its bytes.
#[derive(Clone, Copy)]
pub struct F32Bytes;

impl OfKind for F32Bytes {
    type Element = u8;

    ghost kind = { λ _. bytes_kind f32s };

    ghost sound = { λ _. bytes_sound f32s f32s_sound (lit< tt) };

    fn places(self) -> usize {
        64
    }

    fn draws(self) -> usize {
        1
    }
}

impl FromOne for F32Bytes {
    ghost one_draw = { λ _. refl };

    fn put_group(self, out: &mut [u8], at: usize, w: [u64; 8]) {
        let lo = bits_f32(units_f32(groups::lows(w)));
        let hi = bits_f32(units_f32(groups::highs(w)));
        bytes::put_halves(out, at, lo, hi);
    }
}

impl Group for F32Bytes {
    fn map_groups(self, out: &mut [u8], at: usize, b: &[u64; 128]) {
        group::map_each(self, out, at, b)
    }
}
