// One step of eight xoshiro256++ lanes, on four rows of eight words: row k holds word k of each lane's state, and lane i is column i.
// (The Rust's `add`, `xor`, `shl` and `rotl` on rows, and `Xoshiro256ppX8::step`.) The rows go in and out by value, and a step changes one row
// as a whole at a time; sums wrap by std's function for it: the scope document names these forms.
ghost use Rattle.std.specs.Prelude.{◌≡◌, ◌%◌};
ghost use Rattle.xoshiro.specs.rows.Rows.{sums, xors, shls, rotls};
ghost use Rattle.xoshiro.specs.rows.Lanes.{outputs, stepped};

fn add(a: [u64; 8], b: [u64; 8]) -> [u64; 8]
    ensures { result ≡ sums a b }
{
    std::array::from_fn(|i| std::num::wrapping_add_u64(a[i], b[i]))
}

fn xor(a: [u64; 8], b: [u64; 8]) -> [u64; 8]
    ensures { result ≡ xors a b }
{
    std::array::from_fn(|i| a[i] ^ b[i])
}

// The amount counts modulo 64, as in `words::rotl`.
fn shl(a: [u64; 8], k: u32) -> [u64; 8]
    ensures { result ≡ shls (k % 64) a }
{
    let n = k % 64;
    a.map(|word| word << n)
}

fn rotl(a: [u64; 8], k: u32) -> [u64; 8]
    ensures { result ≡ rotls (k % 64) a }
{
    a.map(|word| words::rotl(word, k))
}

// The words that one step of all eight lanes returns.
pub fn output(s: [[u64; 8]; 4]) -> [u64; 8]
    ensures { result ≡ outputs s }
{
    let s0 = s[0];
    let s3 = s[3];
    let sum = add(s0, s3);
    let turned = rotl(sum, 23);
    add(turned, s0)
}

// The rows after one step of all eight lanes.
pub fn step(rows: [[u64; 8]; 4]) -> [[u64; 8]; 4]
    ensures { result ≡ stepped rows }
{
    let mut s = rows;
    let t = shl(s[1], 17);
    s[2] = xor(s[2], s[0]);
    s[3] = xor(s[3], s[1]);
    s[1] = xor(s[1], s[2]);
    s[0] = xor(s[0], s[3]);
    s[2] = xor(s[2], t);
    s[3] = rotl(s[3], 45);
    s
}
