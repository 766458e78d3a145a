// Scalar xoshiro256++ (Xoshiro256pp of the Rust's xoshiro.rs).
ghost use Rattle.std.specs.Prelude.{◌≡◌, ℕ, ◌*◌, ◌/◌, ◌%◌, ◌^◌, ◌<◌, [], ◌∷◌};
ghost use Rattle.base.specs.Quad.{quad_of, list_of};
ghost use Rattle.base.specs.Refusal.{answer_of};
ghost use Rattle.xoshiro_steps.specs.Xoshiro256pp.{step, plus, highest_below, highest_of, all_zero, jump_poly, long_jump_poly};
ghost use Rattle.xoshiro_steps.specs.Claims.{Words};
ghost use Rattle.xoshiro.specs.powers.Powers.{Powers};
ghost use Rattle.xoshiro.specs.scalar.Calls.{state_of, blank, checked, seeded_by, drawn, jumped_by, jumps_made, steps_made};

use crate::powers;
use crate::splitmix64::SplitMix64;
use base::refusal::Refusal;

// The jump polynomials, word 0 first: two arrays of four words, walked bit by bit, as the scope document has them.
const JUMP: [u64; 4] = [
    0x180e_c6d3_3cfd_0aba,
    0xd5a6_1266_f0c9_392c,
    0xa958_2618_e03f_c9aa,
    0x39ab_dc45_29b1_661c,
];

const LONG_JUMP: [u64; 4] = [
    0x76e1_5d3e_fefd_cbbf,
    0xc500_4e44_1c52_2fb3,
    0x7771_0069_854e_e241,
    0x3910_9bb0_2acb_e635,
];

// Scalar xoshiro256++ (Blackman and Vigna): four words of state, s0 first.
#[derive(Clone, Copy)]
pub struct Xoshiro256pp {
    pub s: [u64; 4],
}

// A word, and the generator after it. (A record: the scope document's form for a pair.)
#[derive(Clone, Copy)]
pub struct Draw {
    pub word: u64,
    pub rng: Xoshiro256pp,
}

// The generator after a jump; and the steps that the jump made, and the generator that these led to.
#[derive(Clone, Copy)]
pub struct Jump {
    pub rng: Xoshiro256pp,
    pub steps: u64,
    pub walked: Xoshiro256pp,
}

// The state after one step.
fn stepped(s: [u64; 4]) -> [u64; 4]
    ensures { result ≡ list_of (step (quad_of s)) }
{
    let t = s[1] << 17;
    let s2 = s[2] ^ s[0];
    let s3 = s[3] ^ s[1];
    [s[0] ^ s3, s[1] ^ s2, s2 ^ t, words::rotl(s3, 45)]
}

// The xor of two states, word by word.
fn xored(a: [u64; 4], b: [u64; 4]) -> [u64; 4]
    ensures { result ≡ list_of (plus (quad_of a) (quad_of b)) }
{
    [a[0] ^ b[0], a[1] ^ b[1], a[2] ^ b[2], a[3] ^ b[3]]
}

// Whether all four words are zero: the one state that a generator must not have.
pub fn is_zero(s: [u64; 4]) -> bool
    ensures { result ≡ all_zero (quad_of s) }
{
    s == [0; 4]
}

// Bit `b % 64` of a word.
fn bit(word: u64, b: usize) -> u64
    ensures { result ≡ word / 2 ^ (b % 64) % 2 }
{
    (word >> (b % 64)) & 1
}

// The place of the highest set bit of a word; 0 where no bit is set.
fn highest_bit(word: u64) -> usize
    ensures { result ≡ highest_below (word ∷ []) 64 }
{
    if word == 0 {
        return 0;
    }
    63 - u64::leading_zeros(word) as usize
}

// The place of the highest set bit of `poly`, counted from bit 0 of word 0; 0 where no bit is set.
fn highest(poly: [u64; 4]) -> usize
    ensures { (result ≡ highest_of poly) × (result < 256) }
{
    // from the last word down: where the compiler knows which word the place is in, it writes the walk of a jump out word by word
    for i in (0..4).rev() {
        let b = highest_bit(poly[i]);
        if bit(poly[i], b) != 0 {
            return 64 * i + b;
        }
    }
    0
}

// The sum of the states at the set bits of `poly`, word 0 first, bit 0 of each word first; a step after each bit below `top`, the highest
// set one. There the walk ends: no later state is added to the sum, which becomes the state.
fn apply_jump(rng: Xoshiro256pp, poly: [u64; 4], top: usize) -> Jump
    requires { (top ≡ highest_of poly) × (top < 256) }
    ensures { result ≡ jumped_by poly rng }
{
    let mut acc = [0u64; 4];
    let mut at = rng.s;
    // what a call returns goes into an array by way of a local: the proof does not close where the array takes it straight
    for i in 0..top / 64 + 1 {
        let word = poly[i];
        // the bits of this word below the highest set one
        let below = words::room(top, 64 * i, 64);
        for b in 0..below {
            if bit(word, b) != 0 {
                let sum = xored(acc, at);
                acc = sum;
            }
            let next = stepped(at);
            at = next;
        }
    }
    if bit(poly[top / 64], top) != 0 {
        let all = xored(acc, at);
        acc = all;
    }
    Jump {
        rng: Xoshiro256pp { s: acc },
        steps: top as u64,
        walked: Xoshiro256pp { s: at },
    }
}

// A word, with what its type says of it.
fn word(x: u64) -> u64
    ensures { (result ≡ x) × (result < 2 ^ 64) }
{
    x
}

// A generator, with what its type says of its words.
fn known(rng: Xoshiro256pp) -> Xoshiro256pp
    ensures { (result ≡ rng) × Words (state_of result) }
{
    let s = rng.s;
    Xoshiro256pp {
        s: [word(s[0]), word(s[1]), word(s[2]), word(s[3])],
    }
}

// The generator after a jump by entry j of `table` for each set bit j of `n`.
fn leaps(rng: Xoshiro256pp, n: u64, table: &[u64; 256]) -> Xoshiro256pp
    ensures words { Words (state_of rng) }
    ensures by_index { (e : ℕ) → Powers e table.now → result ≡ steps_made (n * 2 ^ e) rng }
{
    let mut at = known(rng);
    for j in 0..64 {
        if bit(n, j) != 0 {
            let poly = powers::entry(table, j);
            at = apply_jump(at, poly, highest(poly)).rng;
        }
    }
    at
}

impl Xoshiro256pp {
    // The generator with this state. Refused where all four words are zero.
    pub fn from_state(s: [u64; 4]) -> Result<Self, Refusal>
        ensures { answer_of blank result ≡ checked s }
    {
        if is_zero(s) {
            return Err(Refusal::ZeroState);
        }
        Ok(Self { s })
    }

    // Four words drawn from SplitMix64. The guard keeps the state valid, should all of them be zero.
    pub fn from_seed(seed: u64) -> Self
        ensures { result ≡ seeded_by seed }
    {
        let m0 = SplitMix64::new(seed).next_u64();
        let m1 = m0.rng.next_u64();
        let m2 = m1.rng.next_u64();
        let m3 = m2.rng.next_u64();
        let mut s = [m0.word, m1.word, m2.word, m3.word];
        if is_zero(s) {
            s[0] = 1;
        }
        Self { s }
    }

    // The four words of the state.
    pub fn state(self) -> [u64; 4]
        ensures { result ≡ self.s }
    {
        self.s
    }

    // One step: the word that it returns, and the generator after it.
    pub fn next_u64(self) -> Draw
        ensures { result ≡ drawn self }
    {
        let s = self.s;
        let sum = std::num::wrapping_add_u64(s[0], s[3]);
        let word = std::num::wrapping_add_u64(words::rotl(sum, 23), s[0]);
        Draw {
            word,
            rng: Xoshiro256pp { s: stepped(s) },
        }
    }

    // The sum of the states that the bits of JUMP select, which is the state after 2^128 steps (the crate xoshiro_steps); and how far the
    // walk over these went.
    pub fn jump(self) -> Jump
        ensures { result ≡ jumped_by jump_poly self }
    {
        let poly = JUMP;
        apply_jump(self, poly, highest(poly))
    }

    // The same with LONG_JUMP: the state after 2^192 steps.
    pub fn long_jump(self) -> Jump
        ensures { result ≡ jumped_by long_jump_poly self }
    {
        let poly = LONG_JUMP;
        apply_jump(self, poly, highest(poly))
    }

    // `n` jumps.
    pub fn jumps(self, n: u64) -> Self
        ensures { result ≡ jumps_made n self }
    {
        // a start at block 0 makes none, and wants no table
        if n == 0 {
            return self;
        }
        let by_jumps = powers::jumps();
        leaps(self, n, &by_jumps)
    }

    // `n` steps.
    pub fn steps(self, n: u64) -> Self
        ensures { result ≡ steps_made n self }
    {
        let by_steps = powers::steps();
        leaps(self, n, &by_steps)
    }
}
