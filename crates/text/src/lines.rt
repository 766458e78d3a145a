// The values of a fill's bytes as text, one to a line.
ghost use Rattle.std.specs.Prelude.{◌≡◌, ◌+◌, ◌/◌, ◌^◌, ◌<◌, ◌≤◌, [], ◌∷◌, ◌++◌, length, nat_le};
ghost use Rattle.base.specs.Put.{Put, given};
ghost use Rattle.text.specs.decimal.Decimal.{decimal};
ghost use Rattle.fills.specs.Kinds.{kind_at};
ghost use Rattle.text.specs.lines.Lines.{text_of, line, value_at, lines_of, accepted, ends_of, Counts};

use crate::{decimal, hexfloat};
use fills::kinds;
use slices::bytes;

// Element i of the bytes, which have it.
fn value_at(kind: u64, raw: &[u8], i: usize) -> u64
    requires { i < length raw.now / (kind_at kind).kind.width }
    ensures { (result ≡ value_at (kind_at kind).kind.width raw.now i) × ((kind_at kind).kind.width ≡ 4 → result < 2 ^ 32) }
{
    if kinds::width(kind) == 4 {
        return bytes::word_at(raw, i * 4) % 0x1_0000_0000;
    }
    bytes::word_at(raw, i * 8)
}

// Writes the text of an element with the bits b.
fn put_value(kind: u64, b: u64, out: &mut [u8], at: usize) -> usize
    requires { (at + 24 ≤ length out.old) × ((kind_at kind).kind.width ≡ 4 → b < 2 ^ 32) }
    ensures { Put (text_of kind b) at out.old out.new result }
{
    if kind <= 2 {
        return decimal::put_number(b, out, at);
    }
    if kinds::width(kind) == 4 {
        return hexfloat::put_float32(b as u32, out, at);
    }
    hexfloat::put_float(b, out, at)
}

// The same and a newline.
fn put_line(kind: u64, b: u64, out: &mut [u8], at: usize) -> usize
    requires { (at + 25 ≤ length out.old) × ((kind_at kind).kind.width ≡ 4 → b < 2 ^ 32) }
    ensures { (Put (line kind b) at out.old out.new result) × (result ≤ at + 25) }
{
    let m = put_value(kind, b, out, at);
    out[m] = b'\n';
    m + 1
}

// Writes the lines of the elements that raw holds at the start of out, and answers how many bytes they are. Where the kind has no such bytes, or
// out has not 25 bytes for each element, it writes nothing and answers 0.
pub fn put_lines(kind: u64, raw: &[u8], out: &mut [u8]) -> usize
    ensures put { Put (given (accepted kind (length raw.now) (length out.old)) (lines_of kind raw.now)) 0 out.old out.new result }
    ensures counts { Counts result out.new }
{
    if kinds::refusal_of(kind, raw.len()) != 0 {
        return 0;
    }
    let n = raw.len() / kinds::width(kind);
    if out.len() / 25 < n {
        return 0;
    }
    let mut at: usize = 0;
    for i in 0..n {
        let b = value_at(kind, raw, i);
        at = put_line(kind, b, out, at);
    }
    at
}

// Writes the decimal digits of a + b and the byte stop behind them.
fn put_sum(a: u64, b: u64, stop: u8, out: &mut [u8], at: usize) -> usize
    requires { at + 21 ≤ length out.old }
    ensures { (Put (decimal (a + b) ++ (stop ∷ [])) at out.old out.new result) × (result ≤ at + 21) }
{
    let m = decimal::put_long(decimal::sum(a, b), out, at);
    out[m] = stop;
    m + 1
}

// Writes the line of a fill's ends at the start of out, and answers how many bytes it is. It has 42 bytes at most; with less room it writes
// nothing and answers 0.
pub fn put_ends(first: u64, draws: u64, out: &mut [u8]) -> usize
    ensures put { Put (given (nat_le 42 (length out.old)) (ends_of first draws)) 0 out.old out.new result }
    ensures counts { Counts result out.new }
{
    if out.len() < 42 {
        return 0;
    }
    let m = put_sum(first, 0, b' ', out, 0);
    put_sum(first, draws, b'\n', out, m)
}
