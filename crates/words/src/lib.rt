// Operations on words of 64 bits and their halves that the engines share.
#![tactic(auto)]

ghost use Rattle.std.specs.Prelude.{◌≡◌, ◌+◌, ◌-◌, ◌*◌, ◌/◌, ◌%◌, ◌^◌, min};
ghost use Rattle.words.specs.Words.{rotl as rotated};

// `x` rotated to the left by `k` bits. The amount counts modulo 64, so every `k` is allowed.
// It stands in place of `rotate_left`, since the scope document names this helper.
pub fn rotl(x: u64, k: u32) -> u64
    ensures { result ≡ rotated (k % 64) x }
{
    let j = k % 64;
    (x << j) | (x >> ((64 - j) % 64))
}

// a * b modulo 2^64, by halves of 32 bits: the product of the upper halves has no part below 2^64.
// It stands in place of std's `wrapping_mul`, since the scope document names this helper.
pub fn wrapping_mul(a: u64, b: u64) -> u64
    ensures { result ≡ a * b % 2 ^ 64 }
{
    let a0 = a & 0xffff_ffff;
    let a1 = a >> 32;
    let b0 = b & 0xffff_ffff;
    let b1 = b >> 32;
    let mid = (a1 * b0).wrapping_add(a0 * b1);
    (mid << 32).wrapping_add(a0 * b0)
}

// The low half of a word. A mask comes first, since a cast may not lose bits.
pub fn low(x: u64) -> u32
    ensures { result ≡ x % 2 ^ 32 }
{
    (x & 0xffff_ffff) as u32
}

// The high half of a word.
pub fn high(x: u64) -> u32
    ensures { result ≡ x / 2 ^ 32 }
{
    (x >> 32) as u32
}

// The word with these halves.
pub fn join(lo: u32, hi: u32) -> u64
    ensures { result ≡ lo + 2 ^ 32 * hi }
{
    u64::from(lo) | u64::from(hi) << 32
}

// The whole product of two halves.
pub fn product(a: u32, b: u32) -> u64
    ensures { result ≡ a * b }
{
    u64::from(a) * u64::from(b)
}

// What there is from `at` on of `len`, places of a slice or bits, at most `most`.
pub fn room(len: usize, at: usize, most: usize) -> usize
    ensures { result ≡ min (len - at) most }
{
    len.saturating_sub(at).min(most)
}
