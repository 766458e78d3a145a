// The jumps of a xoshiro256++ stream, and the eight lanes and their fills, for a caller in C: a static library that tests/oracle links
// beside the Rust. `s` is the generator's four words, or four rows; each call leaves in it the generator after the call.
#![tactic(auto)]

ghost use Rattle.std.specs.Prelude.{◌≡◌};
ghost use Rattle.fills.specs.Fill.{Filled};
ghost use Rattle.fills.specs.FillBytes.{FilledBytes};
ghost use Rattle.fills.specs.Kinds.{u64s, u32s, f32s, f64s, normal_f32s, normal_f64s, open01_f32s, open01_f64s};
ghost use Rattle.xoshiro_steps.specs.Xoshiro256pp.{jump_poly, long_jump_poly};
ghost use Rattle.xoshiro.specs.scalar.Calls.{jumped_by};
ghost use Rattle.xoshiro.specs.x8.Calls.{drawn, placed, moved_blocks, engine};
ghost use Rattle.xoshiro.specs.x8.Lanes.{of_rows};

use xoshiro::scalar::Xoshiro256pp;
use xoshiro::x8::Xoshiro256ppX8;
use xoshiro_fills::{bytes, typed};

// The generator whose rows a caller lends.
fn generator(s: &[[u64; 8]; 4]) -> Xoshiro256ppX8
    ensures { result ≡ of_rows s.now }
{
    let [s0, s1, s2, s3] = *s;
    Xoshiro256ppX8 { s0, s1, s2, s3 }
}

fn rows(g: Xoshiro256ppX8) -> [[u64; 8]; 4]
    ensures { of_rows result ≡ g }
{
    let Xoshiro256ppX8 { s0, s1, s2, s3 } = g;
    [s0, s1, s2, s3]
}

// The two jumps answer their steps, and leave in `walked` the state that these led to.
#[unsafe(no_mangle)]
pub extern "C" fn oracle_xoshiro_jump(s: &mut [u64; 4], walked: &mut [u64; 4]) -> u64
    ensures { record { rng = record { s = s.new }; steps = result; walked = record { s = walked.new } } ≡
        jumped_by jump_poly (record { s = s.old }) }
{
    let j = Xoshiro256pp { s: *s }.jump();
    *s = j.rng.state();
    *walked = j.walked.state();
    j.steps
}

#[unsafe(no_mangle)]
pub extern "C" fn oracle_xoshiro_long_jump(s: &mut [u64; 4], walked: &mut [u64; 4]) -> u64
    ensures { record { rng = record { s = s.new }; steps = result; walked = record { s = walked.new } } ≡
        jumped_by long_jump_poly (record { s = s.old }) }
{
    let j = Xoshiro256pp { s: *s }.long_jump();
    *s = j.rng.state();
    *walked = j.walked.state();
    j.steps
}

// Answers the jumps.
#[unsafe(no_mangle)]
pub extern "C" fn oracle_xoshiro_from_seed_block(
    s: &mut [[u64; 8]; 4],
    seed: u64,
    block: u64,
) -> u64
    ensures { record { rng = of_rows s.new; jumps = result } ≡ placed seed block }
{
    let p = Xoshiro256ppX8::from_seed_block(seed, block);
    *s = rows(p.rng);
    p.jumps
}

// Answers the jumps.
#[unsafe(no_mangle)]
pub extern "C" fn oracle_xoshiro_jump_blocks(s: &mut [[u64; 8]; 4], n: u64) -> u64
    ensures { record { rng = of_rows s.new; jumps = result } ≡ moved_blocks n (of_rows s.old) }
{
    let p = generator(s).jump_blocks(n);
    *s = rows(p.rng);
    p.jumps
}

#[unsafe(no_mangle)]
pub extern "C" fn oracle_xoshiro_next_u64x8(s: &mut [[u64; 8]; 4], words: &mut [u64; 8])
    ensures { record { words = words.new; rng = of_rows s.new } ≡ drawn (of_rows s.old) }
{
    let d = generator(s).next_u64x8();
    let w = d.words;
    *words = w;
    *s = rows(d.rng);
}

// The fills answer their draws.
#[unsafe(no_mangle)]
pub extern "C" fn oracle_xoshiro_fill_u64(s: &mut [[u64; 8]; 4], out: &mut [u64]) -> u64
    ensures { Filled engine u64s (of_rows s.old) out.old out.new result (of_rows s.new) }
{
    let f = typed::fill_u64(generator(s), out);
    *s = rows(f.rng);
    f.draws
}

#[unsafe(no_mangle)]
pub extern "C" fn oracle_xoshiro_fill_u32(s: &mut [[u64; 8]; 4], out: &mut [u32]) -> u64
    ensures { Filled engine u32s (of_rows s.old) out.old out.new result (of_rows s.new) }
{
    let f = typed::fill_u32(generator(s), out);
    *s = rows(f.rng);
    f.draws
}

#[unsafe(no_mangle)]
pub extern "C" fn oracle_xoshiro_fill_f32(s: &mut [[u64; 8]; 4], out: &mut [f32]) -> u64
    ensures { Filled engine f32s (of_rows s.old) out.old out.new result (of_rows s.new) }
{
    let f = typed::fill_f32(generator(s), out);
    *s = rows(f.rng);
    f.draws
}

#[unsafe(no_mangle)]
pub extern "C" fn oracle_xoshiro_fill_f64(s: &mut [[u64; 8]; 4], out: &mut [f64]) -> u64
    ensures { Filled engine f64s (of_rows s.old) out.old out.new result (of_rows s.new) }
{
    let f = typed::fill_f64(generator(s), out);
    *s = rows(f.rng);
    f.draws
}

#[unsafe(no_mangle)]
pub extern "C" fn oracle_xoshiro_fill_normal_f32(s: &mut [[u64; 8]; 4], out: &mut [f32]) -> u64
    ensures { Filled engine normal_f32s (of_rows s.old) out.old out.new result (of_rows s.new) }
{
    let f = typed::fill_normal_f32(generator(s), out);
    *s = rows(f.rng);
    f.draws
}

#[unsafe(no_mangle)]
pub extern "C" fn oracle_xoshiro_fill_normal_f64(s: &mut [[u64; 8]; 4], out: &mut [f64]) -> u64
    ensures { Filled engine normal_f64s (of_rows s.old) out.old out.new result (of_rows s.new) }
{
    let f = typed::fill_normal_f64(generator(s), out);
    *s = rows(f.rng);
    f.draws
}

#[unsafe(no_mangle)]
pub extern "C" fn oracle_xoshiro_fill_open01_f32(s: &mut [[u64; 8]; 4], out: &mut [f32]) -> u64
    ensures { Filled engine open01_f32s (of_rows s.old) out.old out.new result (of_rows s.new) }
{
    let f = typed::fill_open01_f32(generator(s), out);
    *s = rows(f.rng);
    f.draws
}

#[unsafe(no_mangle)]
pub extern "C" fn oracle_xoshiro_fill_open01_f64(s: &mut [[u64; 8]; 4], out: &mut [f64]) -> u64
    ensures { Filled engine open01_f64s (of_rows s.old) out.old out.new result (of_rows s.new) }
{
    let f = typed::fill_open01_f64(generator(s), out);
    *s = rows(f.rng);
    f.draws
}

// Answers the refusal's number, and leaves the draws in `draws`.
#[unsafe(no_mangle)]
pub extern "C" fn oracle_xoshiro_fill_bytes(
    s: &mut [[u64; 8]; 4],
    kind: u64,
    out: &mut [u8],
    draws: &mut u64,
) -> u64
    ensures { FilledBytes engine kind (of_rows s.old) out.old out.new result draws.new (of_rows s.new) }
{
    match bytes::fill_bytes(generator(s), kind, out) {
        Ok(f) => {
            *s = rows(f.rng);
            *draws = f.draws;
            0
        }
        Err(refusal) => {
            *draws = 0;
            refusal.number()
        }
    }
}
