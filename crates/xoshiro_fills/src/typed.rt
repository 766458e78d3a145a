// The fills of the eight-lane xoshiro256++ (Rng8 for Xoshiro256ppX8 in the Rust's lib.rs). A fill takes the generator and a lent slice of any
// length, writes each place, and hands back its draws and the generator after them. What the last group has over is dropped.
ghost use Rattle.fills.specs.Fill.{Filled};
ghost use Rattle.fills.specs.Kinds.{u32s, f32s, f64s, normal_f32s, normal_f64s, open01_f32s, open01_f64s};
ghost use Rattle.xoshiro.specs.x8.Calls.{engine};

use crate::engine::{ahead, pairs, plain};
pub use crate::fill_words::{Fill, fill_buffer, fill_u64};
use elements::f32s::F32s;
use elements::f64s::F64s;
use elements::open01_f32s::Open01F32s;
use elements::open01_f64s::Open01F64s;
use elements::u32s::U32s;
use normals::normal_f32s::NormalF32s;
use normals::normal_f64s::NormalF64s;
use xoshiro::x8::Xoshiro256ppX8;

// Kind 2: their low halves, then their high halves.
pub fn fill_u32(g: Xoshiro256ppX8, out: &mut [u32]) -> Fill
    ensures { Filled engine u32s g out.old out.new result.draws result.rng }
{
    plain(g, U32s, out)
}

// Kind 3: the units of kind 2.
pub fn fill_f32(g: Xoshiro256ppX8, out: &mut [f32]) -> Fill
    ensures { Filled engine f32s g out.old out.new result.draws result.rng }
{
    plain(g, F32s, out)
}

// Kind 4: the units of the words.
pub fn fill_f64(g: Xoshiro256ppX8, out: &mut [f64]) -> Fill
    ensures { Filled engine f64s g out.old out.new result.draws result.rng }
{
    plain(g, F64s, out)
}

// Kind 5: normals, from the halves of each word. A buffer is worth its while from 64 lanes on.
pub fn fill_normal_f32(g: Xoshiro256ppX8, out: &mut [f32]) -> Fill
    ensures { Filled engine normal_f32s g out.old out.new result.draws result.rng }
{
    if out.len() < 128 {
        return plain(g, NormalF32s, out);
    }
    ahead(g, NormalF32s, out)
}

// Kind 6: normals, from the words of two draws. A buffer is worth its while from 32 lanes on.
pub fn fill_normal_f64(g: Xoshiro256ppX8, out: &mut [f64]) -> Fill
    ensures { Filled engine normal_f64s g out.old out.new result.draws result.rng }
{
    if out.len() < 64 {
        return pairs(g, NormalF64s, out);
    }
    ahead(g, NormalF64s, out)
}

// Kind 7: the units that are never 0 of kind 2.
pub fn fill_open01_f32(g: Xoshiro256ppX8, out: &mut [f32]) -> Fill
    ensures { Filled engine open01_f32s g out.old out.new result.draws result.rng }
{
    plain(g, Open01F32s, out)
}

// Kind 8: the units that are never 0 of the words.
pub fn fill_open01_f64(g: Xoshiro256ppX8, out: &mut [f64]) -> Fill
    ensures { Filled engine open01_f64s g out.old out.new result.draws result.rng }
{
    plain(g, Open01F64s, out)
}
