// The byte fills of the eight-lane xoshiro256++: what a host asks for by a kind's number.
ghost use Rattle.std.specs.Prelude.{◌≡◌, ◌≤◌};
ghost use Rattle.fills.specs.Buffer.{bytes_kind};
ghost use Rattle.fills.specs.Fill.{Filled};
ghost use Rattle.fills.specs.FillBytes.{FilledBytes};
ghost use Rattle.fills.specs.Kinds.{kind_at, open01_f32s};
ghost use Rattle.fills.specs.Numbers.{number_of};
ghost use Rattle.xoshiro.specs.x8.Calls.{engine};
ghost use Rattle.xoshiro_fills.specs.Answered.{answered};

use crate::engine::{ahead, pairs, plain};
use crate::fill_words::Fill;
use base::refusal::Refusal;
use elements::f32s::F32Bytes;
use elements::f64s::F64Bytes;
use elements::open01_f32s::Open01F32Bytes;
use elements::u32s::U32Bytes;
use elements::u64s::U64Bytes;
use fills::kinds;
use fills::kinds::Kind;
use normals::normal_f32s::NormalF32Bytes;
use normals::normal_f64s::NormalF64Bytes;
use xoshiro::x8::Xoshiro256ppX8;

// The bytes of kinds 5 and 6. A buffer is worth its while from eight draws on.
#[tactic(auto, unfolding(fills::specs::Kinds::kind_at))]
fn fill_apart(g: Xoshiro256ppX8, kind: Kind, out: &mut [u8]) -> Fill
    requires { (5 ≤ number_of kind) × (number_of kind ≤ 6) }
    ensures { Filled engine (bytes_kind (kind_at (number_of kind)).kind) g out.old out.new result.draws result.rng }
{
    let short = out.len() < 512;
    match kind {
        Kind::NormalF32 if short => plain(g, NormalF32Bytes, out),
        Kind::NormalF32 => ahead(g, NormalF32Bytes, out),
        Kind::NormalF64 if short => pairs(g, NormalF64Bytes, out),
        Kind::NormalF64 => ahead(g, NormalF64Bytes, out),
        Kind::U64 | Kind::U32 | Kind::F32 | Kind::F64 | Kind::Open01F32 | Kind::Open01F64 =>
            unreachable!(),
    }
}

// The bytes of kind 7.
fn fill_open01_f32(g: Xoshiro256ppX8, out: &mut [u8]) -> Fill
    ensures { Filled engine (bytes_kind open01_f32s) g out.old out.new result.draws result.rng }
{
    plain(g, Open01F32Bytes, out)
}

// The bytes of a kind. (The loops of kinds 1 to 4 stand here, and that of kind 4 is that of kind 8: of more than four the compiler makes
// poor ones where vectors are short. The other kinds are called with a copy and answer in a copy, so that the generator of these need not
// be in memory: one copy for all of them, since each call clears its locals. Kind 7 stands by itself, because beside the normals the
// compiler cuts its rows in two where vectors are long.)
#[tactic(auto, unfolding(fills::specs::Kinds::kind_at))]
fn fill_kind(g: Xoshiro256ppX8, kind: Kind, out: &mut [u8]) -> Fill
    ensures { Filled engine (bytes_kind (kind_at (number_of kind)).kind) g out.old out.new result.draws result.rng }
{
    match kind {
        Kind::U64 => plain(g, U64Bytes, out),
        Kind::U32 => plain(g, U32Bytes, out),
        Kind::F32 => plain(g, F32Bytes, out),
        Kind::F64 | Kind::Open01F64 => {
            let nonzero = kind == Kind::Open01F64;
            plain(g, F64Bytes { nonzero }, out)
        }
        Kind::NormalF32 | Kind::NormalF64 | Kind::Open01F32 => {
            let h = g;
            let f = if kind == Kind::Open01F32 {
                fill_open01_f32(h, out)
            } else {
                fill_apart(h, kind, out)
            };
            let rng = f.rng;
            Fill {
                rng,
                draws: f.draws,
            }
        }
    }
}

// The bytes of the fill of a kind, by its number: elements little-endian, floats as their bits. Refused with UnknownKind where `kind` is no
// kind's number, with OutputLength where the length isn't a multiple of the kind's width; then nothing changes.
pub fn fill_bytes(g: Xoshiro256ppX8, kind: u64, out: &mut [u8]) -> Result<Fill, Refusal>
    ensures { let a = answered g result in FilledBytes engine kind g out.old out.new a.refusal a.value.draws a.value.rng }
{
    let known = kinds::check(kind, out.len())?;
    Ok(fill_kind(g, known, out))
}
