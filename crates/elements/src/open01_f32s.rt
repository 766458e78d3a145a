// Kind 7, the units that are never 0 of kind 2, and its bytes.
ghost use Rattle.std.specs.Prelude.{map, ◌≡◌, refl};
ghost use Rattle.std.specs.Float.{binary32};
ghost use lib.Dec.{lit<};
ghost use Rattle.fills.proofs.Bytes.{bytes_sound};
ghost use Rattle.fills.proofs.Sounds.{open01_f32s_sound};
ghost use Rattle.fills.specs.Buffer.{bytes_kind};
ghost use Rattle.fills.specs.Kinds.{open01_f32s};
ghost use Rattle.floats.specs.units.Unit.{open01};

use crate::group::{FromOne, Group, OfKind};
use crate::{f32s, group, groups};
use floats::units;
use slices::bytes;

// The units that are never 0 of eight halves.
pub fn open01s_f32(h: [u32; 8]) -> [f32; 8]
    ensures { result ≡ map (open01 binary32) h }
{
    h.map(units::u32_to_open01_f32)
}

// Kind 7.
#[derive(Clone, Copy)]
pub struct Open01F32s;

impl OfKind for Open01F32s {
    type Element = f32;

    ghost kind = { λ _. open01_f32s };

    ghost sound = { λ _. open01_f32s_sound };

    fn places(self) -> usize {
        16
    }

    fn draws(self) -> usize {
        1
    }
}

impl FromOne for Open01F32s {
    ghost one_draw = { λ _. refl };

    fn put_group(self, out: &mut [f32], at: usize, w: [u64; 8]) {
        let lo = open01s_f32(groups::lows(w));
        let hi = open01s_f32(groups::highs(w));
        groups::put_halves(out, at, lo, hi);
    }
}

impl Group for Open01F32s {
    fn map_groups(self, out: &mut [f32], at: usize, b: &[u64; 128]) {
        group::map_each(self, out, at, b)
    }
}

// Its bytes.
#[derive(Clone, Copy)]
pub struct Open01F32Bytes;

impl OfKind for Open01F32Bytes {
    type Element = u8;

    ghost kind = { λ _. bytes_kind open01_f32s };

    ghost sound = { λ _. bytes_sound open01_f32s open01_f32s_sound (lit< tt) };

    fn places(self) -> usize {
        64
    }

    fn draws(self) -> usize {
        1
    }
}

impl FromOne for Open01F32Bytes {
    ghost one_draw = { λ _. refl };

    fn put_group(self, out: &mut [u8], at: usize, w: [u64; 8]) {
        let lo = f32s::bits_f32(open01s_f32(groups::lows(w)));
        let hi = f32s::bits_f32(open01s_f32(groups::highs(w)));
        bytes::put_halves(out, at, lo, hi);
    }
}

impl Group for Open01F32Bytes {
    fn map_groups(self, out: &mut [u8], at: usize, b: &[u64; 128]) {
        group::map_each(self, out, at, b)
    }
}
