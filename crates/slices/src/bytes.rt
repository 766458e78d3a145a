// Words and halves as little-endian bytes, stored in a slice; words read from one.
ghost use Rattle.std.specs.Prelude.{◌++◌, ◌≡◌, ◌+◌, ◌*◌, ◌^◌, take, drop};
ghost use Rattle.base.specs.Bytes.{le_bytes, le_nat, flat};
ghost use Rattle.base.specs.Stored.{stored};

use crate::put;

// The bytes of a word.
pub fn le8(x: u64) -> [u8; 8]
    ensures { result ≡ le_bytes 8 x }
{
    u64::to_le_bytes(x)
}

// The bytes of a half. (`to_le_bytes` is no trait's method, so that this and `le8` are no plainer as one.)
fn le4(x: u32) -> [u8; 4]
    ensures { result ≡ le_bytes 4 x }
{
    u32::to_le_bytes(x)
}

// Two halves as a word of the same bytes.
pub fn pair(lo: u32, hi: u32) -> u64
    ensures { (result ≡ lo + 2 ^ 32 * hi) × (le_bytes 8 result ≡ le_bytes 4 lo ++ le_bytes 4 hi) }
{
    words::join(lo, hi)
}

// Stores the bytes of a word from place `at` on, as far as `out` has places.
pub fn put_word(out: &mut [u8], at: usize, x: u64)
    ensures { out.new ≡ stored out.old at (le_bytes 8 x) }
{
    put::put(out, at, le8(x));
}

// The bytes of eight words, one after another. The compiler keeps them in registers, as words.
fn bytes_of_words(v: [u64; 8]) -> [u8; 64]
    ensures { result ≡ flat (le_bytes 8) v }
{
    let mut bytes = [0u8; 64];
    bytes.copy_from_slice(v.map(le8).as_flattened());
    bytes
}

// Stores the bytes of eight words, one after another, from place `at` on, as far as `out` has places.
pub fn put_words(out: &mut [u8], at: usize, v: [u64; 8])
    ensures { out.new ≡ stored out.old at (flat (le_bytes 8) v) }
{
    put::put(out, at, bytes_of_words(v));
}

// The bytes of sixteen halves, those of `lo` and then those of `hi`.
fn bytes_of_halves(lo: [u32; 8], hi: [u32; 8]) -> [u8; 64]
    ensures { result ≡ flat (le_bytes 4) (lo ++ hi) }
{
    let mut bytes = [0u8; 64];
    bytes.copy_from_slice([lo.map(le4), hi.map(le4)].as_flattened().as_flattened());
    bytes
}

// Stores the bytes of sixteen halves, those of `lo` and then those of `hi`, from place `at` on, as far as `out` has places.
pub fn put_halves(out: &mut [u8], at: usize, lo: [u32; 8], hi: [u32; 8])
    ensures { out.new ≡ stored out.old at (flat (le_bytes 4) (lo ++ hi)) }
{
    put::put(out, at, bytes_of_halves(lo, hi));
}

// The word whose eight bytes stand from `at` on; bytes that `s` doesn't have count as 0.
pub fn word_at(s: &[u8], at: usize) -> u64
    ensures { result ≡ le_nat (take 8 (drop at s.now)) }
{
    if s.len() <= at {
        return 0;
    }
    let rest = &s[at..];
    // eight bytes that are there are one load
    if let Some(whole) = rest.first_chunk::<8>() {
        return u64::from_le_bytes(*whole);
    }
    let mut bytes = [0u8; 8];
    put::put_slice(&mut bytes, 0, rest);
    u64::from_le_bytes(bytes)
}
