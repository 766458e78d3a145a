// Eight xoshiro256++ streams advanced together (Xoshiro256ppX8 of the Rust's xoshiro.rs).
ghost use Rattle.std.specs.Prelude.{◌≡◌, ◌<◌};
ghost use Rattle.base.specs.Every.{every};
ghost use Rattle.base.specs.Refusal.{answer_of};
ghost use Rattle.xoshiro.specs.scalar.Calls.{generator, blank};
ghost use Rattle.xoshiro.specs.x8.Lanes.{rows_in, of_rows, lane_of};
ghost use Rattle.xoshiro.specs.x8.Calls.{is_valid, of_lanes, blank8, from_lanes, lane_call, drawn, skipped, placed, moved_blocks};

use crate::scalar::Xoshiro256pp;
use crate::{rows, scalar};
use base::refusal::Refusal;

// Four rows of eight words: row k holds word k of each lane's state, and lane i is column i. (Four flat rows, the scope document's form round
// the array of rows that the step takes.)
#[derive(Clone, Copy)]
pub struct Xoshiro256ppX8 {
    pub s0: [u64; 8],
    pub s1: [u64; 8],
    pub s2: [u64; 8],
    pub s3: [u64; 8],
}

// Eight words, word i from lane i, and the generator after them. (A record, as the next: the scope document's form for a pair.)
#[derive(Clone, Copy)]
pub struct Draw {
    pub words: [u64; 8],
    pub rng: Xoshiro256ppX8,
}

// A generator, and the jumps that the call counts to its total.
#[derive(Clone, Copy)]
pub struct Placed {
    pub rng: Xoshiro256ppX8,
    pub jumps: u64,
}

// The rows as the step takes them, and back. (Two functions, and no `From`: a conversion's contract would be a law beside it.)
fn rows_of(g: Xoshiro256ppX8) -> [[u64; 8]; 4]
    ensures { result ≡ rows_in g }
{
    let s0 = g.s0;
    let s1 = g.s1;
    let s2 = g.s2;
    let s3 = g.s3;
    [s0, s1, s2, s3]
}

fn of_rows(s: [[u64; 8]; 4]) -> Xoshiro256ppX8
    ensures { result ≡ of_rows s }
{
    let s0 = s[0];
    let s1 = s[1];
    let s2 = s[2];
    let s3 = s[3];
    Xoshiro256ppX8 { s0, s1, s2, s3 }
}

// The generator with these lanes, whatever they are.
fn of_lanes(lanes: [Xoshiro256pp; 8]) -> Xoshiro256ppX8
    ensures { result ≡ of_lanes lanes }
{
    Xoshiro256ppX8 {
        s0: lanes.map(|lane| lane.s[0]),
        s1: lanes.map(|lane| lane.s[1]),
        s2: lanes.map(|lane| lane.s[2]),
        s3: lanes.map(|lane| lane.s[3]),
    }
}

// Whether no lane is four zero words.
fn all_valid(lanes: [Xoshiro256pp; 8]) -> bool
    ensures { result ≡ every is_valid lanes }
{
    // every lane is looked at: eight tests that stop at the first zero lane would be eight branches at each load of a form
    lanes
        .iter()
        .fold(true, |valid, lane| valid & !scalar::is_zero(lane.s))
}

// Lane `i` of a generator.
fn lane_at(g: Xoshiro256ppX8, i: usize) -> Xoshiro256pp
    requires { i < 8 }
    ensures { result ≡ generator (lane_of g i) }
{
    Xoshiro256pp {
        s: [g.s0[i], g.s1[i], g.s2[i], g.s3[i]],
    }
}

impl Xoshiro256ppX8 {
    // Lanes (independent streams) of a generator.
    pub const LANES: usize = 8;

    // Block 0 of `seed`.
    pub fn from_seed(seed: u64) -> Placed
        ensures { result ≡ placed seed 0 }
    {
        Xoshiro256ppX8::from_seed_block(seed, 0)
    }

    // Block `block` of `seed`: lane i is the seed's state after (8 * block modulo 2^64) + i jumps.
    pub fn from_seed_block(seed: u64, block: u64) -> Placed
        ensures { result ≡ placed seed block }
    {
        let jumps = words::wrapping_mul(8, block);
        let mut at = Xoshiro256pp::from_seed(seed).jumps(jumps);
        let mut lanes = [at; 8];
        // each lane comes from the one before it: a closure that changes its generator is no plainer
        for i in 1..8 {
            at = at.jump().rng;
            lanes[i] = at;
        }
        let rng = of_lanes(lanes);
        Placed { rng, jumps }
    }

    // The generator with these lanes. Refused where a lane is four zero words.
    pub fn from_lanes(lanes: [Xoshiro256pp; 8]) -> Result<Self, Refusal>
        ensures { answer_of blank8 result ≡ from_lanes lanes }
    {
        if all_valid(lanes) {
            return Ok(of_lanes(lanes));
        }
        Err(Refusal::ZeroState)
    }

    // Lane `i` as a scalar generator. Refused where `i` is 8 or more.
    pub fn lane(self, i: usize) -> Result<Xoshiro256pp, Refusal>
        ensures { answer_of blank result ≡ lane_call self i }
    {
        if i < 8 {
            return Ok(lane_at(self, i));
        }
        Err(Refusal::NoSuchLane)
    }

    // 8 * n modulo 2^64 jumps in each lane.
    pub fn jump_blocks(self, n: u64) -> Placed
        ensures { result ≡ moved_blocks n self }
    {
        let jumps = words::wrapping_mul(8, n);
        let rng = of_lanes(std::array::from_fn(|i| lane_at(self, i).jumps(jumps)));
        Placed { rng, jumps }
    }

    // The generator after `n` draws: `n` steps of each lane.
    pub fn skip(self, n: u64) -> Self
        ensures { result ≡ skipped n self }
    {
        of_lanes(std::array::from_fn(|i| lane_at(self, i).steps(n)))
    }

    // One draw: a step of all eight lanes.
    pub fn next_u64x8(self) -> Draw
        ensures { result ≡ drawn self }
    {
        let rows = rows_of(self);
        let words = rows::output(rows);
        let after = rows::step(rows);
        let rng = of_rows(after);
        Draw { words, rng }
    }
}
