// Many draws of Philox4x32-10 at once, straight into a slice: the lower words of eight blocks, then their upper words, with no words left to
// wait between the two; and one draw, made the same way. Fills are made of these calls.
ghost use Rattle.std.specs.Prelude.{◌≡◌, ◌+◌, ◌-◌, ◌*◌, ◌≤◌, length, slice_index};
ghost use Rattle.base.specs.Engine.{DrawnAt};
ghost use Rattle.base.specs.Quad.{quad_of, list_of};
ghost use Rattle.base.specs.Table.{table};
ghost use Rattle.philox.specs.block.Philox.{round as roundOf, block as block_of};
ghost use Rattle.philox.specs.x8.Machine.{upper_at, label_of, drawn, engine};
ghost use Rattle.philox.specs.draws.Draws.{Small, lower_of, upper_of, at_block, draws_at_once};

use crate::x8::{Draw, Label, Philox4x32X8};
use slices::put;

// The multipliers, and what a round adds to the key words.
const M0: u64 = 0xD251_1F53;

const M1: u64 = 0xCD9E_8D57;

const W0: u32 = 0x9E37_79B9;

const W1: u32 = 0xBB67_AE85;

// The lower and the upper word of a block.
#[derive(Clone, Copy)]
struct Halves {
    lower: u64,
    upper: u64,
}

// One round of a block (`philox::block::round`), its words of 32 bits held in words of 64: several blocks then become vector code. (Two
// writings, each proved equal to one definition; the other is the plain one.)
fn round(c: [u64; 4], k0: u32, k1: u32) -> [u64; 4]
    requires { Small (quad_of c) }
    ensures { result ≡ list_of (roundOf k0 k1 (quad_of c)) }
{
    let p0 = M0 * c[0];
    let p1 = M1 * c[2];
    [
        (p1 >> 32) ^ c[1] ^ (k0 as u64),
        p1 & 0xffff_ffff,
        (p0 >> 32) ^ c[3] ^ (k1 as u64),
        p0 & 0xffff_ffff,
    ]
}

// Block `n` of stream `stream` under the key words `key0` and `key1`.
fn block(key0: u32, key1: u32, stream: u64, n: u64) -> Halves
    ensures { (result.lower ≡ lower_of (block_of key0 key1 stream n)) × (result.upper ≡ upper_of (block_of key0 key1 stream n)) }
{
    let mut c = [n & 0xffff_ffff, n >> 32, stream & 0xffff_ffff, stream >> 32];
    let mut k0 = key0;
    let mut k1 = key1;
    for _ in 0u32..10 {
        let next = round(c, k0, k1);
        c = next;
        k0 = std::num::wrapping_add_u32(k0, W0);
        k1 = std::num::wrapping_add_u32(k1, W1);
    }
    Halves {
        lower: c[0] | (c[1] << 32),
        upper: c[2] | (c[3] << 32),
    }
}

// `m` groups of eight blocks, one group after another from place `at` on, and the block after them: the lower words of blocks n to n + 7,
// each modulo 2^64, then their upper words. The loops stand in one function, so that what the key's words become in ten rounds is made once.
fn put_groups(key: [u32; 2], stream: u64, counter: u64, out: &mut [u64], at: usize, m: usize) -> u64
    requires { at + m * 16 ≤ length out.old }
    ensures { DrawnAt engine (at_block key stream counter) at (2 * m) out.old out.new (2 * m) (at_block key stream result) }
{
    let mut n = counter;
    for g in 0..m {
        let first = at + g * 16;
        for i in 0..8 {
            let number = std::num::wrapping_add_u64(n, i as u64);
            let b = block(key[0], key[1], stream, number);
            out[first + i] = b.lower;
            out[first + 8 + i] = b.upper;
        }
        n = std::num::wrapping_add_u64(n, 8);
    }
    n
}

// Half of the words of a group: draw 0 or, from 8 on, draw 1.
fn half(both: &[u64; 16], first: usize) -> [u64; 8]
    requires { first ≤ 8 }
    ensures { result ≡ table 8 (λ k. slice_index both.now (first + k)) }
{
    std::array::from_fn(|k| both[first + k])
}

// One draw, as the plain one (`next_u64x8`), its blocks made as above.
pub fn draw(g: Philox4x32X8) -> Draw
    ensures { result ≡ drawn g }
{
    if g.waiting {
        return g.waiting_draw();
    }
    let key = g.key;
    let mut both = [0u64; 16];
    let counter = put_groups(key, g.stream, g.counter, &mut both, 0, 1);
    let words = half(&both, 0);
    let pending = half(&both, 8);
    g.first_draw(counter, words, pending)
}

// The upper words of the eight blocks from block `n` on.
pub fn upper_words(g: Philox4x32X8, n: u64) -> [u64; 8]
    ensures { result ≡ upper_at g n }
{
    let mut group = [0u64; 16];
    let key = g.key;
    put_groups(key, g.stream, n, &mut group, 0, 1);
    half(&group, 8)
}

// The draws that a call made, the label of the first (of the next draw, where it made none), and the generator after them.
#[derive(Clone, Copy)]
pub struct Drawn {
    pub draws: usize,
    pub label: Label,
    pub rng: Philox4x32X8,
}

// Many draws at once, their words in the places from `at` on: the words that wait, if any do; else as many whole groups of two draws as
// there is room for.
pub fn draw_many(g: Philox4x32X8, out: &mut [u64], at: usize) -> Drawn
    ensures { DrawnAt engine g at (draws_at_once g (length out.old - at)) out.old out.new result.draws
        result.rng × (result.label ≡ label_of g) }
{
    let waiting = g.waiting;
    if waiting {
        let d = g.next_u64x8();
        let w = d.words;
        put::put(out, at, w);
        let rng = d.rng;
        let label = d.label;
        return Drawn {
            draws: 1,
            label,
            rng,
        };
    }
    let label = Label {
        first: g.counter,
        upper: false,
    };
    let m = words::room(out.len(), at, out.len()) / 16;
    // with no draws the generator stays as it is, whatever it holds in the place of words that wait
    if m == 0 {
        return Drawn {
            draws: 0,
            label,
            rng: g,
        };
    }
    let key = g.key;
    let n = put_groups(key, g.stream, g.counter, out, at, m);
    let rng = g.seek(n);
    Drawn {
        draws: 2 * m,
        label,
        rng,
    }
}
