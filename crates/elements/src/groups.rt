// What the fills of every kind share, whatever the engine: how many groups come next, a buffer cut into draws, the halves of words and of groups.
ghost use Rattle.std.specs.Prelude.{◌++◌, ◌≡◌, ◌-◌, ◌%◌, min};
ghost use Rattle.base.specs.Engine.{draw_of};
ghost use Rattle.base.specs.Stored.{stored};
ghost use Rattle.fills.specs.Fill.{round_up};
ghost use Rattle.fills.specs.Kinds.{lows as lowsOf, highs as highsOf};

use slices::put;

// The groups of `places` places that `len` places begin.
pub fn groups_in(len: usize, places: usize) -> usize
    ensures { result ≡ round_up len places }
{
    groups_of(len, 0, places, len)
}

// The groups of `places` places that the places from `at` on of a slice of length `len` begin, at most `most`.
pub fn groups_of(len: usize, at: usize, places: usize, most: usize) -> usize
    ensures { result ≡ min (round_up (len - at) places) most }
{
    if len <= at {
        return 0;
    }
    if places == 0 {
        return 0;
    }
    (len - at).div_ceil(places).min(most)
}

// The words of draw `i`, modulo 16, of a buffer of 16 draws.
pub fn draw_of(b: &[u64; 128], i: usize) -> [u64; 8]
    ensures { result ≡ draw_of b.now (i % 16) }
{
    let first = i % 16 * 8;
    std::array::from_fn(|k| b[first + k])
}

// The low halves of eight words.
pub fn lows(w: [u64; 8]) -> [u32; 8]
    ensures { result ≡ lowsOf w }
{
    w.map(words::low)
}

// The high halves of eight words.
pub fn highs(w: [u64; 8]) -> [u32; 8]
    ensures { result ≡ highsOf w }
{
    w.map(words::high)
}

// Stores two halves of a group, one after the other, in the places from `at` on, as far as `out` has them. (Part of the loop that calls it:
// in a call the rows of the generator would wait in memory.)
#[inline(always)]
pub fn put_halves<T: Copy>(out: &mut [T], at: usize, lo: [T; 8], hi: [T; 8])
    ensures { out.new ≡ stored out.old at (lo ++ hi) }
{
    if out.len() <= at {
        return;
    }
    let room = out.len() - at;
    // where both have room, the compiler leaves out the test for each
    if 16 <= room {
        put::put(out, at, lo);
        put::put(out, at + 8, hi);
        return;
    }
    put::put(out, at, lo);
    if room <= 8 {
        return;
    }
    put::put(out, at + 8, hi);
}
