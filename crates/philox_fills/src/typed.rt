// The fills of Philox4x32-10 (Rng8 for Philox4x32X8 in the Rust's lib.rs). A fill takes the generator and a lent slice of any length, writes
// each place, and hands back its draws, the label of the first and the generator after them. What the last group has over is dropped.
ghost use Rattle.fills.specs.Kinds.{u32s, f32s, f64s, normal_f32s, normal_f64s, open01_f32s, open01_f64s};
ghost use Rattle.philox_fills.specs.Labelled.{LabelledFill};

use crate::engine::{pairs, singles};
pub use crate::fill_words::{Fill, fill_buffer, fill_u64};
use elements::f32s::F32s;
use elements::f64s::F64s;
use elements::open01_f32s::Open01F32s;
use elements::open01_f64s::Open01F64s;
use elements::u32s::U32s;
use normals::normal_f32s::NormalF32s;
use normals::normal_f64s::NormalF64s;
use philox::x8::Philox4x32X8;

// Kind 2: their low halves, then their high halves.
pub fn fill_u32(g: Philox4x32X8, out: &mut [u32]) -> Fill
    ensures { LabelledFill u32s g out.old out.new result }
{
    singles(g, U32s, out)
}

// Kind 3: the units of kind 2.
pub fn fill_f32(g: Philox4x32X8, out: &mut [f32]) -> Fill
    ensures { LabelledFill f32s g out.old out.new result }
{
    singles(g, F32s, out)
}

// Kind 4: the units of the words.
pub fn fill_f64(g: Philox4x32X8, out: &mut [f64]) -> Fill
    ensures { LabelledFill f64s g out.old out.new result }
{
    singles(g, F64s, out)
}

// Kind 5: normals, from the halves of each word.
pub fn fill_normal_f32(g: Philox4x32X8, out: &mut [f32]) -> Fill
    ensures { LabelledFill normal_f32s g out.old out.new result }
{
    singles(g, NormalF32s, out)
}

// Kind 6: normals, from the words of two draws.
pub fn fill_normal_f64(g: Philox4x32X8, out: &mut [f64]) -> Fill
    ensures { LabelledFill normal_f64s g out.old out.new result }
{
    pairs(g, NormalF64s, out)
}

// Kind 7: the units that are never 0 of kind 2.
pub fn fill_open01_f32(g: Philox4x32X8, out: &mut [f32]) -> Fill
    ensures { LabelledFill open01_f32s g out.old out.new result }
{
    singles(g, Open01F32s, out)
}

// Kind 8: the units that are never 0 of the words.
pub fn fill_open01_f64(g: Philox4x32X8, out: &mut [f64]) -> Fill
    ensures { LabelledFill open01_f64s g out.old out.new result }
{
    singles(g, Open01F64s, out)
}
