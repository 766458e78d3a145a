// Decimal numbers in a text: writing one, and reading one.
ghost use Rattle.std.specs.Prelude.{◌≡◌, ◌+◌, ◌≤◌, length, nat_le};
ghost use Rattle.base.specs.Put.{Put, given};
ghost use Rattle.text.specs.decimal.Decimal.{decimal, padded};
ghost use Rattle.text.specs.decimal.Long.{long_of, value_of, fitting};
ghost use Rattle.text.specs.decimal.Number.{extended, number_at};

// A number that was read: its value, and the place behind the byte that ends it.
#[derive(Clone, Copy, Debug, PartialEq, Eq)]
pub struct Number {
    pub value: u64,
    pub next: usize,
}

// How many digits v has. Four at a time, as a division costs more than a comparison.
fn digits(v: u64) -> usize
    ensures { (result ≡ length (decimal v)) × (result ≤ 20) }
{
    let mut w = v;
    let mut n: usize = 0;
    while 10_000 <= w {
        w = w / 10_000;
        n += 4;
    }
    if w < 10 {
        return n + 1;
    }
    if w < 100 {
        return n + 2;
    }
    if w < 1_000 {
        return n + 3;
    }
    n + 4
}

// Whether a text of n bytes has room from place at on in a buffer of size bytes.
pub(crate) fn holds(size: usize, at: usize, n: usize) -> bool
    ensures { result ≡ nat_le (at + n) size }
{
    if size < n {
        return false;
    }
    at <= size - n
}

fn digit(d: u64) -> u8
    requires { d ≤ 9 }
    ensures { result ≡ 48 + d }
{
    b'0' + d as u8
}

// Writes the last k digits of v from the last to the first, two to a division.
fn put_padded(v: u64, k: usize, out: &mut [u8], at: usize) -> usize
    requires { at + k ≤ length out.old }
    ensures { Put (padded k v) at out.old out.new result }
{
    let odd = k % 2;
    let mut w = v;
    for pair in (0..k / 2).rev() {
        let place = at + odd + 2 * pair;
        let two = w % 100;
        w = w / 100;
        out[place + 1] = digit(two % 10);
        out[place] = digit(two / 10);
    }
    if odd == 1 {
        out[at] = digit(w % 10);
    }
    at + k
}

// Writes v's digits from place at of out on and answers the place behind them; without room for all of them it writes nothing and answers at.
pub fn put_number(v: u64, out: &mut [u8], at: usize) -> usize
    ensures { Put (given (nat_le (at + length (decimal v)) (length out.old)) (decimal v)) at out.old out.new result }
{
    let n = digits(v);
    if !holds(out.len(), at, n) {
        return at;
    }
    put_padded(v, n, out, at)
}

// The value of v's digits with the byte b behind them, where b is a digit and the value is at most top.
fn extended(top: u64, v: u64, b: u8) -> Option<u64>
    ensures { result ≡ extended top v b }
{
    if b < b'0' || b > b'9' || v > top / 10 {
        return None;
    }
    let d = u64::from(b - b'0');
    if d > top - v * 10 {
        return None;
    }
    Some(v * 10 + d)
}

// Reads the number that starts at a place of s and ends before the byte stop: no zero in front, at most top.
pub fn read_number(s: &[u8], at: usize, stop: u8, top: u64) -> Option<Number>
    ensures { result ≡ number_at top stop s.now at }
{
    let first = *s.get(at)?;
    let mut value = extended(top, 0, first)?;
    for i in at + 1..s.len() {
        let b = s[i];
        if b == stop {
            return Some(Number { value, next: i + 1 });
        }
        if value == 0 {
            return None;
        }
        value = extended(top, value, b)?;
    }
    None
}

// A number of more than 64 bits: 10^18 for each of high, and low, which is less than that.
#[derive(Clone, Copy)]
pub struct Long {
    pub high: u64,
    pub low: u64,
}

// The sum of two numbers, in full.
pub fn sum(a: u64, b: u64) -> Long
    ensures { result ≡ long_of (a + b) }
{
    let low = a % 1_000_000_000_000_000_000 + b % 1_000_000_000_000_000_000;
    let high = a / 1_000_000_000_000_000_000 + b / 1_000_000_000_000_000_000;
    if low < 1_000_000_000_000_000_000 {
        Long { high, low }
    } else {
        Long {
            high: high + 1,
            low: low - 1_000_000_000_000_000_000,
        }
    }
}

// Writes the digits of a number in two parts, as put_number does; one whose lower part is 10^18 or more is not written.
pub fn put_long(w: Long, out: &mut [u8], at: usize) -> usize
    ensures { Put (given (fitting w at (length out.old)) (decimal (value_of w))) at out.old out.new result }
{
    if 1_000_000_000_000_000_000 <= w.low {
        return at;
    }
    if w.high == 0 {
        return put_number(w.low, out, at);
    }
    let n = digits(w.high);
    if !holds(out.len(), at, n + 18) {
        return at;
    }
    let m = put_padded(w.high, n, out, at);
    put_padded(w.low, 18, out, m)
}
