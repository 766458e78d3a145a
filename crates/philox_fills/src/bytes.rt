// The byte fills of Philox4x32-10: what a host asks for by a kind's number.
ghost use Rattle.fills.specs.Buffer.{bytes_kind};
ghost use Rattle.fills.specs.Fill.{Filled};
ghost use Rattle.fills.specs.Kinds.{kind_at};
ghost use Rattle.fills.specs.Numbers.{number_of};
ghost use Rattle.philox.specs.x8.Machine.{engine};
ghost use Rattle.philox_fills.specs.Labelled.{answered, LabelledBytes};

use crate::engine::Philox;
use crate::fill_words::{Fill, labelled};
use base::refusal::Refusal;
use element_bytes::KindBytes;
use elements::engine::Made;
use elements::f32s::F32Bytes;
use elements::f64s::F64Bytes;
use elements::fill::{fill_ahead, fill_pairs, fill_plain};
use elements::open01_f32s::Open01F32Bytes;
use elements::u32s::U32Bytes;
use elements::u64s::U64Bytes;
use fills::kinds;
use fills::kinds::Kind;
use normals::normal_f32s::NormalF32Bytes;
use normals::normal_f64s::NormalF64Bytes;
use philox::x8::Philox4x32X8;

// The bytes of a kind. A buffer is worth its while from eight draws on.
#[tactic(auto, unfolding(fills::specs::Kinds::kind_at))]
fn fill_kind(g: Philox4x32X8, kind: Kind, out: &mut [u8]) -> Made<Philox4x32X8>
    ensures { Filled engine (bytes_kind (kind_at (number_of kind)).kind) g out.old out.new result.draws result.rng }
{
    if 512 <= out.len() {
        return fill_ahead::<Philox, KindBytes>(g, KindBytes(kind), out);
    }
    match kind {
        Kind::U64 => fill_plain::<Philox, U64Bytes>(g, U64Bytes, out),
        Kind::U32 => fill_plain::<Philox, U32Bytes>(g, U32Bytes, out),
        Kind::F32 => fill_plain::<Philox, F32Bytes>(g, F32Bytes, out),
        Kind::F64 | Kind::Open01F64 => {
            let nonzero = kind == Kind::Open01F64;
            fill_plain::<Philox, F64Bytes>(g, F64Bytes { nonzero }, out)
        }
        Kind::NormalF32 => fill_plain::<Philox, NormalF32Bytes>(g, NormalF32Bytes, out),
        Kind::NormalF64 => fill_pairs::<Philox, NormalF64Bytes>(g, NormalF64Bytes, out),
        Kind::Open01F32 => fill_plain::<Philox, Open01F32Bytes>(g, Open01F32Bytes, out),
    }
}

// The bytes of the fill of a kind, by its number: elements little-endian, floats as their bits. Refused with UnknownKind where `kind` is no
// kind's number, with OutputLength where the length isn't a multiple of the kind's width; then nothing changes.
pub fn fill_bytes(g: Philox4x32X8, kind: u64, out: &mut [u8]) -> Result<Fill, Refusal>
    ensures { LabelledBytes kind g out.old out.new (answered g result) }
{
    let known = kinds::check(kind, out.len())?;
    Ok(labelled(g, fill_kind(g, known, out)))
}
