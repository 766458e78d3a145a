// The calls of Girderpeach for C (`girderpeach_c` exports them, include/girderpeach.h): fills of both engines from a saved form, which each
// accepted call replaces with the state after it. An answer is a number, or minus a refusal's number; a refused call changes no byte.
#![tactic(auto)]

ghost use Rattle.std.specs.Prelude.{◌≡◌};
ghost use Rattle.base.specs.Refusal.{refusal_in};
ghost use Rattle.girderpeach.specs.Host.{answer_of, answered};
ghost use Rattle.girderpeach.specs.Xoshiro.{Filled, New, JumpedBlocks, Skipped};
ghost use Rattle.girderpeach.specs.Philox as philox;

mod on_philox;
mod on_xoshiro;

use base::refusal::Refusal;
use philox::x8::Philox4x32X8;
use saved::philox4x32;

// The answer of a call: its value, or minus its refusal's number.
fn answer(outcome: Result<i64, Refusal>) -> i64
    ensures { result ≡ answered outcome }
{
    match outcome {
        Ok(value) => value,
        Err(refusal) => -(refusal.number() as i64),
    }
}

// The answer of a call that has no value: 0, or minus its refusal's number.
fn done(outcome: Result<(), Refusal>) -> i64
    ensures { result ≡ answer_of (refusal_in outcome) 0 }
{
    answer(outcome.map(|()| 0))
}

// Fills `out` with the bytes of kind `kind`, and replaces `form`. Answers the draws made.
pub fn gp_xoshiro_fill(form: &mut [u8], kind: u64, out: &mut [u8]) -> i64
    ensures { Filled form.old kind out.old result form.new out.new }
{
    answer(on_xoshiro::fill(form, kind, out))
}

// The same, of a Philox form. Words that aren't their group's are refused after a kind or a length.
pub fn gp_philox_fill(form: &mut [u8], kind: u64, out: &mut [u8]) -> i64
    ensures { philox.Filled form.old kind out.old result form.new out.new }
{
    answer(on_philox::fill(form, kind, out))
}

// Writes the form of block `block` of `seed`, and the jumps that the block counts.
pub fn gp_xoshiro_new(seed: u64, block: u64, form: &mut [u8], jumps: &mut u64) -> i64
    ensures { New seed block form.old jumps.old result form.new jumps.new }
{
    done(on_xoshiro::new(seed, block, form, jumps))
}

// Moves the form by `n` blocks, and writes the jumps that the move counts.
pub fn gp_xoshiro_jump_blocks(form: &mut [u8], n: u64, jumps: &mut u64) -> i64
    ensures { JumpedBlocks n form.old jumps.old result form.new jumps.new }
{
    done(on_xoshiro::jump_blocks(form, n, jumps))
}

// Moves the form on by `draws` draws, as if they had been made.
pub fn gp_xoshiro_skip(form: &mut [u8], draws: u64) -> i64
    ensures { Skipped draws form.old result form.new }
{
    done(on_xoshiro::skip(form, draws))
}

// Writes the form of stream `stream` of key `seed`, counter 0.
pub fn gp_philox_new(seed: u64, stream: u64, form: &mut [u8]) -> i64
    ensures { philox.New seed stream form.old result form.new }
{
    done(philox4x32::save(Philox4x32X8::new(seed, stream), form))
}

// Block `block` is next, and no words wait.
pub fn gp_philox_seek(form: &mut [u8], block: u64) -> i64
    ensures { philox.Sought block form.old result form.new }
{
    done(on_philox::seek(form, block))
}

// Moves the form on by `draws` draws, as if they had been made.
pub fn gp_philox_skip(form: &mut [u8], draws: u64) -> i64
    ensures { philox.Skipped draws form.old result form.new }
{
    done(on_philox::skip(form, draws))
}

// Answers the draws that the whole groups before counter 2^64 still hold, and the draw that waits.
pub fn gp_philox_draws_left(form: &[u8]) -> i64
    ensures { result ≡ philox.draws_left form.now }
{
    answer(on_philox::draws_left(form))
}

// Writes the first block of the next draw's group. Answers 0 where the draw is the group's lower half, 1 where it is the upper.
pub fn gp_philox_label(form: &[u8], first: &mut u64) -> i64
    ensures { philox.Labelled form.now first.old result first.new }
{
    answer(on_philox::label(form, first))
}

// Moves the form of 96 bytes `old` to the form of 104 bytes `form`.
pub fn gp_philox_from_96(old: &[u8], form: &mut [u8]) -> i64
    ensures { philox.From96 old.now form.old result form.new }
{
    done(philox4x32::from_96(old, form))
}

// Moves the form of 104 bytes `form` to the form of 96 bytes `old`.
pub fn gp_philox_to_96(form: &[u8], old: &mut [u8]) -> i64
    ensures { philox.To96 form.now old.old result old.new }
{
    done(philox4x32::to_96(form, old))
}
