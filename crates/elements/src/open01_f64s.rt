// Kind 8, the units that are never 0 of kind 1. (Its bytes: f64s::F64Bytes.)
ghost use Rattle.std.specs.Prelude.{map, ◌≡◌, refl};
ghost use Rattle.std.specs.Float.{binary64};
ghost use Rattle.fills.proofs.Sounds.{open01_f64s_sound};
ghost use Rattle.fills.specs.Kinds.{open01_f64s};
ghost use Rattle.floats.specs.units.Unit.{open01};

use crate::group;
use crate::group::{FromOne, Group, OfKind};
use floats::units;
use slices::put;

// The units that are never 0 of eight words.
pub fn open01s_f64(w: [u64; 8]) -> [f64; 8]
    ensures { result ≡ map (open01 binary64) w }
{
    w.map(units::u64_to_open01_f64)
}

// Kind 8.
#[derive(Clone, Copy)]
pub struct Open01F64s;

impl OfKind for Open01F64s {
    type Element = f64;

    ghost kind = { λ _. open01_f64s };

    ghost sound = { λ _. open01_f64s_sound };

    fn places(self) -> usize {
        8
    }

    fn draws(self) -> usize {
        1
    }
}

impl FromOne for Open01F64s {
    ghost one_draw = { λ _. refl };

    fn put_group(self, out: &mut [f64], at: usize, w: [u64; 8]) {
        put::put(out, at, open01s_f64(w));
    }
}

impl Group for Open01F64s {
    fn map_groups(self, out: &mut [f64], at: usize, b: &[u64; 128]) {
        group::map_each(self, out, at, b)
    }
}
