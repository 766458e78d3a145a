// Kind 4, the units of kind 1, and its bytes, which are made as those of kind 8 are.
ghost use Rattle.std.specs.Prelude.{map, ◌≡◌, refl};
ghost use Rattle.std.specs.Float.{binary64};
ghost use Rattle.std.specs.Float.Ieee.{to_bits};
ghost use lib.Dec.{lit<};
ghost use Rattle.fills.proofs.Bytes.{bytes_sound};
ghost use Rattle.fills.proofs.Sounds.{f64s_sound, either_f64s_sound};
ghost use Rattle.fills.specs.Buffer.{bytes_kind, either_f64s};
ghost use Rattle.fills.specs.Kinds.{f64s};
ghost use Rattle.floats.specs.units.Unit.{unit, unit_of};

use crate::group;
use crate::group::{FromOne, Group, OfKind};
use floats::{patterns, units};
use slices::{bytes, put};

// The units of eight words.
pub fn units_f64(w: [u64; 8]) -> [f64; 8]
    ensures { result ≡ map (unit binary64) w }
{
    w.map(units::u64_to_unit_f64)
}

// The patterns of eight floats.
pub fn bits_f64(v: [f64; 8]) -> [u64; 8]
    ensures { result ≡ map (to_bits binary64) v }
{
    v.map(patterns::to_bits_f64)
}

// The units of eight words, or those that are never 0. (By index: with `from_fn` byte fills of kinds 4 and 8 took up to a quarter longer.)
fn either_f64(w: [u64; 8], nonzero: bool) -> [f64; 8]
    ensures { result ≡ map (unit_of binary64 nonzero) w }
{
    let mut out = [0.0f64; 8];
    for i in 0..8 {
        out[i] = units::u64_to_f64(w[i], nonzero);
    }
    out
}

// Kind 4.
#[derive(Clone, Copy)]
pub struct F64s;

impl OfKind for F64s {
    type Element = f64;

    ghost kind = { λ _. f64s };

    ghost sound = { λ _. f64s_sound };

    fn places(self) -> usize {
        8
    }

    fn draws(self) -> usize {
        1
    }
}

impl FromOne for F64s {
    ghost one_draw = { λ _. refl };

    fn put_group(self, out: &mut [f64], at: usize, w: [u64; 8]) {
        put::put(out, at, units_f64(w));
    }
}

impl Group for F64s {
    fn map_groups(self, out: &mut [f64], at: usize, b: &[u64; 128]) {
        group::map_each(self, out, at, b)
    }
}

// The bytes of kind 4, or of kind 8. (One for both, so that a byte fill has one loop for both: of more loops in one function the compiler
// makes poorer ones.)
#[derive(Clone, Copy)]
pub struct F64Bytes {
    pub nonzero: bool,
}

impl OfKind for F64Bytes {
    type Element = u8;

    ghost kind = { λ k. bytes_kind (either_f64s k.nonzero) };

    ghost sound = { λ k. bytes_sound (either_f64s k.nonzero) (either_f64s_sound k.nonzero) (lit< tt) };

    fn places(self) -> usize {
        64
    }

    fn draws(self) -> usize {
        1
    }
}

impl FromOne for F64Bytes {
    ghost one_draw = { λ _. refl };

    fn put_group(self, out: &mut [u8], at: usize, w: [u64; 8]) {
        bytes::put_words(out, at, bits_f64(either_f64(w, self.nonzero)));
    }
}

impl Group for F64Bytes {
    fn map_groups(self, out: &mut [u8], at: usize, b: &[u64; 128]) {
        group::map_each(self, out, at, b)
    }
}
