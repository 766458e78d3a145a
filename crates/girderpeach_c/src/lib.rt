// Girderpeach for C (include/girderpeach.h): each export is the call of that name of the library `girderpeach`, which says more of it, and
// promises the same. A slice is a pointer and a length in C.
#![tactic(auto)]

ghost use Rattle.std.specs.Prelude.{◌≡◌};
ghost use Rattle.girderpeach.specs.Xoshiro.{Filled, New, JumpedBlocks, Skipped};
ghost use Rattle.girderpeach.specs.Philox as philox;

// Fills `out` with the bytes of kind `kind`, and replaces `form`. Answers the draws made.
#[unsafe(no_mangle)]
pub extern "C" fn gp_xoshiro_fill(form: &mut [u8], kind: u64, out: &mut [u8]) -> i64
    ensures { Filled form.old kind out.old result form.new out.new }
{
    girderpeach::gp_xoshiro_fill(form, kind, out)
}

// The same, of a Philox form. Words that aren't their group's are refused after a kind or a length.
#[unsafe(no_mangle)]
pub extern "C" fn gp_philox_fill(form: &mut [u8], kind: u64, out: &mut [u8]) -> i64
    ensures { philox.Filled form.old kind out.old result form.new out.new }
{
    girderpeach::gp_philox_fill(form, kind, out)
}

// Writes the form of block `block` of `seed`, and the jumps that the block counts.
#[unsafe(no_mangle)]
pub extern "C" fn gp_xoshiro_new(seed: u64, block: u64, form: &mut [u8], jumps: &mut u64) -> i64
    ensures { New seed block form.old jumps.old result form.new jumps.new }
{
    girderpeach::gp_xoshiro_new(seed, block, form, jumps)
}

// Moves the form by `n` blocks, and writes the jumps that the move counts.
#[unsafe(no_mangle)]
pub extern "C" fn gp_xoshiro_jump_blocks(form: &mut [u8], n: u64, jumps: &mut u64) -> i64
    ensures { JumpedBlocks n form.old jumps.old result form.new jumps.new }
{
    girderpeach::gp_xoshiro_jump_blocks(form, n, jumps)
}

// Moves the form on by `draws` draws, as if they had been made.
#[unsafe(no_mangle)]
pub extern "C" fn gp_xoshiro_skip(form: &mut [u8], draws: u64) -> i64
    ensures { Skipped draws form.old result form.new }
{
    girderpeach::gp_xoshiro_skip(form, draws)
}

// Writes the form of stream `stream` of key `seed`, counter 0.
#[unsafe(no_mangle)]
pub extern "C" fn gp_philox_new(seed: u64, stream: u64, form: &mut [u8]) -> i64
    ensures { philox.New seed stream form.old result form.new }
{
    girderpeach::gp_philox_new(seed, stream, form)
}

// Block `block` is next, and no words wait.
#[unsafe(no_mangle)]
pub extern "C" fn gp_philox_seek(form: &mut [u8], block: u64) -> i64
    ensures { philox.Sought block form.old result form.new }
{
    girderpeach::gp_philox_seek(form, block)
}

// Moves the form on by `draws` draws, as if they had been made.
#[unsafe(no_mangle)]
pub extern "C" fn gp_philox_skip(form: &mut [u8], draws: u64) -> i64
    ensures { philox.Skipped draws form.old result form.new }
{
    girderpeach::gp_philox_skip(form, draws)
}

// Answers the draws that the whole groups before counter 2^64 still hold, and the draw that waits.
#[unsafe(no_mangle)]
pub extern "C" fn gp_philox_draws_left(form: &[u8]) -> i64
    ensures { result ≡ philox.draws_left form.now }
{
    girderpeach::gp_philox_draws_left(form)
}

// Writes the first block of the next draw's group. Answers 0 where the draw is the group's lower half, 1 where it is the upper.
#[unsafe(no_mangle)]
pub extern "C" fn gp_philox_label(form: &[u8], first: &mut u64) -> i64
    ensures { philox.Labelled form.now first.old result first.new }
{
    girderpeach::gp_philox_label(form, first)
}

// Moves the form of 96 bytes `old` to the form of 104 bytes `form`.
#[unsafe(no_mangle)]
pub extern "C" fn gp_philox_from_96(old: &[u8], form: &mut [u8]) -> i64
    ensures { philox.From96 old.now form.old result form.new }
{
    girderpeach::gp_philox_from_96(old, form)
}

// Moves the form of 104 bytes `form` to the form of 96 bytes `old`.
#[unsafe(no_mangle)]
pub extern "C" fn gp_philox_to_96(form: &[u8], old: &mut [u8]) -> i64
    ensures { philox.To96 form.now old.old result old.new }
{
    girderpeach::gp_philox_to_96(form, old)
}
