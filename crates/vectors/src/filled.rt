// Fills of every kind on both engines, typed and by bytes, short ones and long ones: they are made in different ways.
ghost use Rattle.std.specs.Prelude.{◌<◌};

use crate::{decimal, hex, hex_half};
use base::refusal::Refusal;
use floats::patterns;
use philox::x8::Philox4x32X8;
use std::io::Stdout;
use xoshiro::x8::Xoshiro256ppX8;

// Elements are written one by one where they are few, and then as one number: the 64-bit FNV-1a digest, of patterns in the place of bytes.
const FEW: usize = 64;

const EMPTY: u64 = 0xcbf2_9ce4_8422_2325;

fn digested(sum: u64, x: u64) -> u64 {
    (sum ^ x).wrapping_mul(0x0100_0000_01b3)
}

// An element of a fill: its bits as a word, and how it is written.
trait Element: Copy {
    fn bits(self) -> u64;

    fn put(self, to: Stdout) {
        hex(to, self.bits());
    }
}

impl Element for u8 {
    fn bits(self) -> u64 {
        u64::from(self)
    }
}

impl Element for u32 {
    fn bits(self) -> u64 {
        u64::from(self)
    }

    fn put(self, to: Stdout) {
        hex_half(to, self);
    }
}

impl Element for u64 {
    fn bits(self) -> u64 {
        self
    }
}

impl Element for f32 {
    fn bits(self) -> u64 {
        u64::from(patterns::to_bits_f32(self))
    }

    fn put(self, to: Stdout) {
        hex_half(to, patterns::to_bits_f32(self));
    }
}

impl Element for f64 {
    fn bits(self) -> u64 {
        patterns::to_bits_f64(self)
    }
}

fn put<T: Element>(to: Stdout, draws: u64, out: &[T]) {
    decimal(to, draws);
    if out.len() < FEW {
        for x in out {
            x.put(to);
        }
    }
    let sum = out.iter().fold(EMPTY, |sum, x| digested(sum, x.bits()));
    hex(to, sum);
}

// An engine's fills. Each answers its draws and the generator after them.
pub(crate) trait Fills: Copy {
    fn u64s(self, out: &mut [u64]) -> (u64, Self);

    fn u32s(self, out: &mut [u32]) -> (u64, Self);

    fn f32s(self, out: &mut [f32]) -> (u64, Self);

    fn f64s(self, out: &mut [f64]) -> (u64, Self);

    fn normal_f32s(self, out: &mut [f32]) -> (u64, Self);

    fn normal_f64s(self, out: &mut [f64]) -> (u64, Self);

    fn bytes(self, kind: u64, out: &mut [u8]) -> Result<(u64, Self), Refusal>;
}

impl Fills for Xoshiro256ppX8 {
    fn u64s(self, out: &mut [u64]) -> (u64, Self) {
        let f = xoshiro_fills::typed::fill_u64(self, out);
        (f.draws, f.rng)
    }

    fn u32s(self, out: &mut [u32]) -> (u64, Self) {
        let f = xoshiro_fills::typed::fill_u32(self, out);
        (f.draws, f.rng)
    }

    fn f32s(self, out: &mut [f32]) -> (u64, Self) {
        let f = xoshiro_fills::typed::fill_f32(self, out);
        (f.draws, f.rng)
    }

    fn f64s(self, out: &mut [f64]) -> (u64, Self) {
        let f = xoshiro_fills::typed::fill_f64(self, out);
        (f.draws, f.rng)
    }

    fn normal_f32s(self, out: &mut [f32]) -> (u64, Self) {
        let f = xoshiro_fills::typed::fill_normal_f32(self, out);
        (f.draws, f.rng)
    }

    fn normal_f64s(self, out: &mut [f64]) -> (u64, Self) {
        let f = xoshiro_fills::typed::fill_normal_f64(self, out);
        (f.draws, f.rng)
    }

    fn bytes(self, kind: u64, out: &mut [u8]) -> Result<(u64, Self), Refusal> {
        let f = xoshiro_fills::bytes::fill_bytes(self, kind, out)?;
        Ok((f.draws, f.rng))
    }
}

impl Fills for Philox4x32X8 {
    fn u64s(self, out: &mut [u64]) -> (u64, Self) {
        let f = philox_fills::typed::fill_u64(self, out);
        (f.draws, f.rng)
    }

    fn u32s(self, out: &mut [u32]) -> (u64, Self) {
        let f = philox_fills::typed::fill_u32(self, out);
        (f.draws, f.rng)
    }

    fn f32s(self, out: &mut [f32]) -> (u64, Self) {
        let f = philox_fills::typed::fill_f32(self, out);
        (f.draws, f.rng)
    }

    fn f64s(self, out: &mut [f64]) -> (u64, Self) {
        let f = philox_fills::typed::fill_f64(self, out);
        (f.draws, f.rng)
    }

    fn normal_f32s(self, out: &mut [f32]) -> (u64, Self) {
        let f = philox_fills::typed::fill_normal_f32(self, out);
        (f.draws, f.rng)
    }

    fn normal_f64s(self, out: &mut [f64]) -> (u64, Self) {
        let f = philox_fills::typed::fill_normal_f64(self, out);
        (f.draws, f.rng)
    }

    fn bytes(self, kind: u64, out: &mut [u8]) -> Result<(u64, Self), Refusal> {
        let f = philox_fills::bytes::fill_bytes(self, kind, out)?;
        Ok((f.draws, f.rng))
    }
}

// A fill of `out` from `g`, written; the generator after it.
fn written<G, T: Element, F: FnOnce(G, &mut [T]) -> (u64, G)>(
    to: Stdout,
    g: G,
    out: &mut [T],
    fill: F,
) -> G
    requires { F.IsAlwaysCallable fill }
{
    let (draws, rng) = fill(g, out);
    put(to, draws, out);
    rng
}

// A typed fill of `N` elements of each kind.
fn typed<G: Fills, const N: usize>(to: Stdout, g: G) -> G
    requires { N < 2000 }
{
    let g = written(to, g, &mut [0u64; N], G::u64s);
    let g = written(to, g, &mut [0u32; N], G::u32s);
    let g = written(to, g, &mut [0.0f32; N], G::f32s);
    let g = written(to, g, &mut [0.0f64; N], G::f64s);
    let g = written(to, g, &mut [0.0f32; N], G::normal_f32s);
    written(to, g, &mut [0.0f64; N], G::normal_f64s)
}

// A byte fill.
fn bytes<G: Fills>(to: Stdout, g: G, kind: u64, out: &mut [u8]) -> Result<G, Refusal> {
    let (draws, rng) = g.bytes(kind, out)?;
    put(to, draws, out);
    Ok(rng)
}

pub(crate) fn each<G: Fills>(to: Stdout, start: G) -> Result<G, Refusal> {
    let few = typed::<G, 21>(to, start);
    let mut rng = typed::<G, 1100>(to, few);
    for kind in 1u64..7 {
        let short = bytes(to, rng, kind, &mut [0u8; 168])?;
        rng = bytes(to, short, kind, &mut [0u8; 8800])?;
    }
    Ok(rng)
}
