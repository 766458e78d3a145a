// Kind 2, the low halves of words and then the high halves, and its bytes.
ghost use Rattle.std.specs.Prelude.{refl};
ghost use lib.Dec.{lit<};
ghost use Rattle.fills.proofs.Bytes.{bytes_sound};
ghost use Rattle.fills.proofs.Sounds.{u32s_sound};
ghost use Rattle.fills.specs.Buffer.{bytes_kind};
ghost use Rattle.fills.specs.Kinds.{u32s};

use crate::group::{FromOne, Group, OfKind};
use crate::{group, groups};
use slices::bytes;

// Kind 2.
#[derive(Clone, Copy)]
pub struct U32s;

impl OfKind for U32s {
    type Element = u32;

    ghost kind = { λ _. u32s };

    ghost sound = { λ _. u32s_sound };

    fn places(self) -> usize {
        16
    }

    fn draws(self) -> usize {
        1
    }
}

impl FromOne for U32s {
    ghost one_draw = { λ _. refl };

    fn put_group(self, out: &mut [u32], at: usize, w: [u64; 8]) {
        groups::put_halves(out, at, groups::lows(w), groups::highs(w));
    }
}

impl Group for U32s {
    fn map_groups(self, out: &mut [u32], at: usize, b: &[u64; 128]) {
        group::map_each(self, out, at, b)
    }
}

// Its bytes.
#[derive(Clone, Copy)]
pub struct U32Bytes;

impl OfKind for U32Bytes {
    type Element = u8;

    ghost kind = { λ _. bytes_kind u32s };

    ghost sound = { λ _. bytes_sound u32s u32s_sound (lit< tt) };

    fn places(self) -> usize {
        64
    }

    fn draws(self) -> usize {
        1
    }
}

impl FromOne for U32Bytes {
    ghost one_draw = { λ _. refl };

    fn put_group(self, out: &mut [u8], at: usize, w: [u64; 8]) {
        bytes::put_halves(out, at, groups::lows(w), groups::highs(w));
    }
}

impl Group for U32Bytes {
    fn map_groups(self, out: &mut [u8], at: usize, b: &[u64; 128]) {
        group::map_each(self, out, at, b)
    }
}
