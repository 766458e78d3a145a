// The work of the calls on the form of an eight-lane generator.
ghost use Rattle.base.specs.Refusal.{refusal_in};
ghost use Rattle.girderpeach.specs.Host.{answer_of, answered};
ghost use Rattle.girderpeach.specs.Xoshiro.{Filled, New, JumpedBlocks, Skipped};

use base::refusal::Refusal;
use saved::xoshiro256pp;
use xoshiro::x8::Xoshiro256ppX8;

pub fn fill(form: &mut [u8], kind: u64, out: &mut [u8]) -> Result<i64, Refusal>
    ensures { Filled form.old kind out.old (answered result) form.new out.new }
{
    let rng = xoshiro256pp::load(form)?;
    let fill = xoshiro_fills::bytes::fill_bytes(rng, kind, out)?;
    xoshiro256pp::save(fill.rng, form)?;
    Ok(fill.draws as i64)
}

pub fn new(seed: u64, block: u64, form: &mut [u8], jumps: &mut u64) -> Result<(), Refusal>
    ensures { New seed block form.old jumps.old (answer_of (refusal_in result) 0) form.new jumps.new }
{
    // tested first: a refused call makes no jumps
    if form.len() != 256 {
        return Err(Refusal::FormLength);
    }
    let start = Xoshiro256ppX8::from_seed_block(seed, block);
    *jumps = start.jumps;
    xoshiro256pp::save(start.rng, form)
}

pub fn jump_blocks(form: &mut [u8], n: u64, jumps: &mut u64) -> Result<(), Refusal>
    ensures { JumpedBlocks n form.old jumps.old (answer_of (refusal_in result) 0) form.new jumps.new }
{
    let moved = xoshiro256pp::load(form)?.jump_blocks(n);
    *jumps = moved.jumps;
    xoshiro256pp::save(moved.rng, form)
}

pub fn skip(form: &mut [u8], draws: u64) -> Result<(), Refusal>
    ensures { Skipped draws form.old (answer_of (refusal_in result) 0) form.new }
{
    let rng = xoshiro256pp::load(form)?;
    xoshiro256pp::save(rng.skip(draws), form)
}
