// Kind 1, the words themselves, and its bytes.
ghost use Rattle.std.specs.Prelude.{refl};
ghost use lib.Dec.{lit<};
ghost use Rattle.fills.proofs.Bytes.{bytes_sound};
ghost use Rattle.fills.proofs.Sounds.{u64s_sound};
ghost use Rattle.fills.specs.Buffer.{bytes_kind};
ghost use Rattle.fills.specs.Kinds.{u64s};

use crate::group;
use crate::group::{FromOne, Group, OfKind};
use slices::{bytes, put};

// Kind 1.
#[derive(Clone, Copy)]
pub struct U64s;

impl OfKind for U64s {
    type Element = u64;

    ghost kind = { λ _. u64s };

    ghost sound = { λ _. u64s_sound };

    fn places(self) -> usize {
        8
    }

    fn draws(self) -> usize {
        1
    }
}

impl FromOne for U64s {
    ghost one_draw = { λ _. refl };

    fn put_group(self, out: &mut [u64], at: usize, w: [u64; 8]) {
        put::put(out, at, w);
    }
}

impl Group for U64s {
    fn map_groups(self, out: &mut [u64], at: usize, b: &[u64; 128]) {
        group::map_each(self, out, at, b)
    }
}

// Its bytes.
#[derive(Clone, Copy)]
pub struct U64Bytes;

impl OfKind for U64Bytes {
    type Element = u8;

    ghost kind = { λ _. bytes_kind u64s };

    ghost sound = { λ _. bytes_sound u64s u64s_sound (lit< tt) };

    fn places(self) -> usize {
        64
    }

    fn draws(self) -> usize {
        1
    }
}

impl FromOne for U64Bytes {
    ghost one_draw = { λ _. refl };

    fn put_group(self, out: &mut [u8], at: usize, w: [u64; 8]) {
        bytes::put_words(out, at, w);
    }
}

impl Group for U64Bytes {
    fn map_groups(self, out: &mut [u8], at: usize, b: &[u64; 128]) {
        group::map_each(self, out, at, b)
    }
}
