// Writes what the engines hand out. The file `stdout` beside src/ holds what it must write: the published vectors, the scope
// document's refusal numbers, and the answers of the Rust (tests/oracle says how they were made).
#![tactic(auto)]

mod filled;

use base::refusal::Refusal;
use philox::block;
use philox::x8::Philox4x32X8;
use std::io::Stdout;
use xoshiro::scalar::{Jump, Xoshiro256pp};
use xoshiro::splitmix64::SplitMix64;
use xoshiro::x8::Xoshiro256ppX8;

// A write that fails is passed over: the text that is compared then lacks it.
fn title(to: Stdout, text: &str) {
    let _written = println!(to; "{text}");
}

fn decimal(to: Stdout, x: u64) {
    let _written = println!(to; "{x}");
}

fn hex(to: Stdout, x: u64) {
    let _written = println!(to; "{x:016x}");
}

fn hex_half(to: Stdout, x: u32) {
    let _written = println!(to; "{x:08x}");
}

fn put_state(to: Stdout, s: [u64; 4]) {
    for x in s {
        hex(to, x);
    }
}

// Eight words as one, each in its place.
fn folded(w: [u64; 8]) -> u64 {
    w.iter().fold(0, |sum, x| sum.rotate_left(7) ^ x)
}

fn folded_halves(lo: [u32; 8], hi: [u32; 8]) -> u64 {
    folded(std::array::from_fn(|i| words::join(lo[i], hi[i])))
}

// ---- the published vectors
// Ten outputs from `start` on, where `next` answers a generator's output and the generator after it.
fn ten_words<G: Copy, F: Fn(G) -> (u64, G)>(to: Stdout, start: G, next: F)
    requires { F.IsAlwaysCallable next }
{
    let mut rng = start;
    for _ in 0u32..10 {
        let (word, after) = next(rng);
        decimal(to, word);
        rng = after;
    }
}

fn published_philox(to: Stdout, counter: [u32; 4], key: [u32; 2]) {
    for x in block::philox4x32_10(counter, key) {
        hex_half(to, x);
    }
}

fn published(to: Stdout) -> Result<(), Refusal> {
    title(to, "SplitMix64 published");
    ten_words(to, SplitMix64::new(1477776061723855037), |g| {
        let d = g.next_u64();
        (d.word, d.rng)
    });
    title(to, "xoshiro256++ published");
    ten_words(to, Xoshiro256pp::from_state([1, 2, 3, 4])?, |g| {
        let d = g.next_u64();
        (d.word, d.rng)
    });
    title(to, "Philox4x32-10 published");
    published_philox(to, [0; 4], [0; 2]);
    published_philox(to, [0xffff_ffff; 4], [0xffff_ffff; 2]);
    published_philox(
        to,
        [0x243f_6a88, 0x85a3_08d3, 0x1319_8a2e, 0x0370_7344],
        [0xa409_3822, 0x299f_31d0],
    );
    Ok(())
}

// The published vectors again, on the code that fills are made of. From lanes that are all (1, 2, 3, 4) each draw has an output eight
// times: the one of draw j is read from lane j modulo 8. (By index: an iterator over chunks would need a second number for the lane.)
fn ten_outputs(to: Stdout, words: &[u64; 128]) {
    for j in 0..10 {
        decimal(to, words[j * 8 + j % 8]);
    }
}

// In a fill of words, and in the buffer that fills of normals are made of.
fn published_xoshiro_filled(to: Stdout) -> Result<(), Refusal> {
    title(to, "xoshiro256++ published, in fills");
    let lane = Xoshiro256pp::from_state([1, 2, 3, 4])?;
    let rng = Xoshiro256ppX8::from_lanes([lane; 8])?;
    let mut words = [0u64; 128];
    xoshiro_fills::typed::fill_u64(rng, &mut words);
    ten_outputs(to, &words);
    let mut buffer = [0u64; 128];
    xoshiro_fills::typed::fill_buffer(rng, &mut buffer, 16);
    ten_outputs(to, &buffer);
    Ok(())
}

// The halves of a word of a fill, low half first.
fn put_halves(to: Stdout, word: u64) {
    hex_half(to, words::low(word));
    hex_half(to, words::high(word));
}

// The first of eight blocks: its lower word is in one draw, its upper word in the next. In a fill of both draws, which are made at once,
// and in two fills of one draw each.
fn published_philox_filled(to: Stdout, block: u64, stream: u64, key: u64) {
    let rng = Philox4x32X8::new(key, stream).seek(block);
    let mut both = [0u64; 16];
    philox_fills::typed::fill_u64(rng, &mut both);
    put_halves(to, both[0]);
    put_halves(to, both[8]);
    let mut lower = [0u64; 8];
    let f = philox_fills::typed::fill_u64(rng, &mut lower);
    put_halves(to, lower[0]);
    let mut upper = [0u64; 8];
    philox_fills::typed::fill_u64(f.rng, &mut upper);
    put_halves(to, upper[0]);
}

fn published_filled(to: Stdout) -> Result<(), Refusal> {
    published_xoshiro_filled(to)?;
    title(to, "Philox4x32-10 published, in fills");
    published_philox_filled(to, 0, 0, 0);
    published_philox_filled(
        to,
        0xffff_ffff_ffff_ffff,
        0xffff_ffff_ffff_ffff,
        0xffff_ffff_ffff_ffff,
    );
    published_philox_filled(
        to,
        0x85a3_08d3_243f_6a88,
        0x0370_7344_1319_8a2e,
        0x299f_31d0_a409_3822,
    );
    Ok(())
}

// The refusal numbers of the scope document, 0 for none: of a zero state, of a lane past the last and the last, of eight lanes and of a zero
// lane among them; and of fills, of no kind's number, and of a length that is no multiple of the width.
fn refusals(to: Stdout) {
    title(to, "Refusals");
    refusal(to, Xoshiro256pp::from_state([0; 4]));
    let rng = Xoshiro256ppX8::from_seed(42).rng;
    refusal(to, rng.lane(8));
    refusal(to, rng.lane(7));
    let mut lanes = [Xoshiro256pp::from_seed(42); 8];
    refusal(to, Xoshiro256ppX8::from_lanes(lanes));
    lanes[7] = Xoshiro256pp { s: [0; 4] };
    refusal(to, Xoshiro256ppX8::from_lanes(lanes));
    refused_fill(to, 0, &mut [0u8; 8]);
    refused_fill(to, 9, &mut [0u8; 8]);
    refused_fill(to, 5, &mut [0u8; 6]);
    refused_fill(to, 6, &mut [0u8; 12]);
}

fn refusal<T: Drop>(to: Stdout, answer: Result<T, Refusal>) {
    decimal(to, answer.err().map_or(0, Refusal::number));
}

fn refused_fill(to: Stdout, kind: u64, out: &mut [u8]) {
    let rng = Xoshiro256ppX8::from_seed(42).rng;
    refusal(to, xoshiro_fills::bytes::fill_bytes(rng, kind, out));
    refusal(
        to,
        philox_fills::bytes::fill_bytes(Philox4x32X8::from_seed(42), kind, out),
    );
}

// ---- the Rust's answers
// The state after a jump, the steps that it made, and the state that these led to.
fn jumped(to: Stdout, j: Jump) {
    put_state(to, j.rng.state());
    hex(to, j.steps);
    put_state(to, j.walked.state());
}

// The states of a seed: as seeded, after three draws, after a jump and after a long jump, both with their steps.
fn scalar(to: Stdout, seed: u64) {
    let mut rng = Xoshiro256pp::from_seed(seed);
    put_state(to, rng.state());
    for _ in 0u32..3 {
        let d = rng.next_u64();
        hex(to, d.word);
        rng = d.rng;
    }
    let short = rng.jump();
    jumped(to, short);
    let long = short.rng.long_jump();
    jumped(to, long);
}

// Draws of a generator, eight words each in one line.
fn lane_draws(to: Stdout, g: Xoshiro256ppX8, n: u32) -> Xoshiro256ppX8 {
    let mut rng = g;
    for _ in 0..n {
        let d = rng.next_u64x8();
        hex(to, folded(d.words));
        rng = d.rng;
    }
    rng
}

// A block of a seed, moved by n blocks: draws before and after, then each lane's state.
fn lanes(to: Stdout, seed: u64, block: u64, n: u64) -> Result<(), Refusal> {
    let built = Xoshiro256ppX8::from_seed_block(seed, block);
    let drawn = lane_draws(to, built.rng, 3);
    let moved = drawn.jump_blocks(n);
    let rng = lane_draws(to, moved.rng, 2);
    for i in 0..8 {
        put_state(to, rng.lane(i)?.state());
    }
    Ok(())
}

// Draws, group calls and seeks in an order that SplitMix64 picks; a seek is near 2^64 half of the time.
fn machine(to: Stdout, seed: u64, stream: u64, calls: u32) {
    let mut rng = Philox4x32X8::new(seed, stream);
    let mut order = SplitMix64::new(seed);
    for _ in 0..calls {
        let d = order.next_u64();
        let pick = d.word;
        order = d.rng;
        rng = event(to, rng, pick);
        decimal(to, rng.draws_left());
    }
}

fn event(to: Stdout, rng: Philox4x32X8, pick: u64) -> Philox4x32X8 {
    match pick % 8 {
        0 => rng.seek(pick >> 3),
        1 => rng.seek(u64::MAX - (pick >> 60)),
        2 => {
            let b = rng.blocks();
            hex(to, folded_halves(b.w0, b.w1));
            hex(to, folded_halves(b.w2, b.w3));
            b.rng
        }
        _ => {
            let d = rng.next_u64x8();
            hex(to, folded(d.words));
            d.rng
        }
    }
}

// Fills of every kind; on Philox the counter passes 2^64 among them. Then one draw each, of the generator after them.
fn fills(to: Stdout) -> Result<(), Refusal> {
    title(to, "Xoshiro256ppX8 fills");
    let start = Xoshiro256ppX8::from_seed_block(0x0123_4567_89ab_cdef, 3);
    let rng = filled::each(to, start.rng)?;
    lane_draws(to, rng, 1);
    title(to, "Philox4x32X8 fills");
    let rng = filled::each(
        to,
        Philox4x32X8::new(0x0123_4567_89ab_cdef, 7).seek(0xffff_ffff_ffff_fe00),
    )?;
    event(to, rng, 7);
    Ok(())
}

fn main(rt: HostRuntime) -> Result<(), Refusal> {
    let to = rt.stdout();
    published(to)?;
    published_filled(to)?;
    refusals(to);
    title(to, "Xoshiro256pp");
    for seed in [0, 1, 42, 0x9e37_79b9_7f4a_7c15, u64::MAX] {
        scalar(to, seed);
    }
    title(to, "Xoshiro256ppX8");
    lanes(to, 42, 0, 0)?;
    lanes(to, 42, 1, 1)?;
    lanes(to, 7, 100, 13)?;
    lanes(to, 7, 0x2000_0000_0000_0003, 0x2000_0000_0000_0001)?;
    title(to, "Philox4x32X8");
    machine(to, 42, 0, 200);
    machine(to, 0x0123_4567_89ab_cdef, 7, 200);
    machine(to, 0xffff_ffff_ffff_ffff, 0xffff_ffff_ffff_ffff, 200);
    fills(to)
}
