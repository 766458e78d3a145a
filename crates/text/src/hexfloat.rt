// The text of a float in C's exact hexadecimal notation, as glibc's printf("%a") writes it.
ghost use Rattle.std.specs.Prelude.{◌≡◌, ◌+◌, ◌<◌, ◌≤◌, [], ◌∷◌, length, nat_le};
ghost use Rattle.base.specs.Put.{Put, given};
ghost use Rattle.text.specs.hexfloat.Text.{hex_digit, hex_padded, stripped, fraction, power};
ghost use Rattle.text.specs.hexfloat.Text.{number, magnitude, minus, hex_text, widened};

use crate::decimal;
use floats::patterns;

fn hex_digit(d: u64) -> u8
    requires { d ≤ 15 }
    ensures { result ≡ hex_digit d }
{
    if d < 10 {
        b'0' + d as u8
    } else {
        b'a' - 10 + d as u8
    }
}

// Writes the last k hexadecimal digits of v, from the last to the first.
fn put_hex(v: u64, k: usize, out: &mut [u8], at: usize) -> usize
    requires { at + k ≤ length out.old }
    ensures { Put (hex_padded k v) at out.old out.new result }
{
    let mut w = v;
    for j in (0..k).rev() {
        out[at + j] = hex_digit(w % 16);
        w = w / 16;
    }
    at + k
}

// Writes the 13 digits of t up to the last that isn't 0.
fn put_stripped(t: u64, out: &mut [u8], at: usize) -> usize
    requires { at + 13 ≤ length out.old }
    ensures { Put (stripped 13 t) at out.old out.new result }
{
    // most fractions have all their digits, and a loop of 13 turns that the compiler knows to be 13 becomes straight code
    if t % 16 != 0 {
        return put_hex(t, 13, out, at);
    }
    let mut w = t;
    for k in (0..13).rev() {
        if w % 16 != 0 {
            return put_hex(w, k + 1, out, at);
        }
        w = w / 16;
    }
    at
}

// Writes bytes that have room. (A writer takes the buffer and a place, and no struct of both: Put names the buffer before and after the call, which
// a struct that holds the `&mut` would have to say of its borrow.)
fn put_all<const N: usize>(bytes: [u8; N], out: &mut [u8], at: usize) -> usize
    requires { at + N ≤ length out.old }
    ensures { Put bytes.entry at out.old out.new result }
{
    out[at..at + N].copy_from_slice(&bytes);
    at + N
}

fn put_fraction(t: u64, out: &mut [u8], at: usize) -> usize
    requires { at + 14 ≤ length out.old }
    ensures { Put (fraction t) at out.old out.new result }
{
    if t == 0 {
        return at;
    }
    let m = put_all([b'.'], out, at);
    put_stripped(t, out, m)
}

// Writes the power that the exponent's field e stands for.
fn put_power(e: u64, out: &mut [u8], at: usize) -> usize
    requires { (e < 2047) × (at + 6 ≤ length out.old) }
    ensures { Put (power e) at out.old out.new result }
{
    if e < 1023 {
        let m = put_all([b'p', b'-'], out, at);
        return decimal::put_number(1023 - e, out, m);
    }
    let m = put_all([b'p', b'+'], out, at);
    decimal::put_number(e - 1023, out, m)
}

fn put_finite(lead: u8, t: u64, e: u64, out: &mut [u8], at: usize) -> usize
    requires { (lead < 2) × (e < 2047) × (at + 23 ≤ length out.old) }
    ensures { Put (number lead t e) at out.old out.new result }
{
    let m = put_all([b'0', b'x', b'0' + lead], out, at);
    let n = put_fraction(t, out, m);
    put_power(e, out, n)
}

// Writes what the fields of the exponent and of the fraction stand for.
fn put_magnitude(x: u64, t: u64, out: &mut [u8], at: usize) -> usize
    requires { (x < 2048) × (at + 23 ≤ length out.old) }
    ensures { Put (magnitude x t) at out.old out.new result }
{
    if x == 2047 {
        if t == 0 {
            return put_all(*b"inf", out, at);
        }
        return put_all(*b"nan", out, at);
    }
    if x == 0 {
        if t == 0 {
            return put_finite(0, 0, 1023, out, at);
        }
        return put_finite(0, t, 1, out, at);
    }
    put_finite(1, t, x, out, at)
}

fn put_minus(s: bool, out: &mut [u8], at: usize) -> usize
    requires { at + 1 ≤ length out.old }
    ensures { Put (minus s) at out.old out.new result }
{
    if s {
        return put_all([b'-'], out, at);
    }
    at
}

// Writes the text of a binary64 pattern from place at of out on and answers the place behind it. A text has 24 bytes at most; with less room
// it writes nothing and answers at.
pub fn put_float(b: u64, out: &mut [u8], at: usize) -> usize
    ensures { Put (given (nat_le (at + 24) (length out.old)) (hex_text b)) at out.old out.new result }
{
    if !decimal::holds(out.len(), at, 24) {
        return at;
    }
    let m = put_minus(b >= 0x8000_0000_0000_0000, out, at);
    put_magnitude(
        b % 0x8000_0000_0000_0000 / 0x10_0000_0000_0000,
        b % 0x10_0000_0000_0000,
        out,
        m,
    )
}

// The same of a binary32 pattern: the text of the double of its value.
pub fn put_float32(b: u32, out: &mut [u8], at: usize) -> usize
    ensures { Put (given (nat_le (at + 24) (length out.old)) (hex_text (widened b))) at out.old out.new result }
{
    let x = std::num::f32_to_f64_with_nan(patterns::from_bits_f32(b));
    put_float(patterns::to_bits_f64(x), out, at)
}
