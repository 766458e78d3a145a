// Floats and their patterns at every value. Rattle's own `to_bits` and `from_bits` are undefined at a NaN; these are total, and a
// NaN, of which the definitions know only one, has the quiet pattern with the sign clear.
ghost use Rattle.std.specs.Prelude.{◌≡◌, cond};
ghost use Rattle.std.specs.Float.{binary32, binary64};
ghost use Rattle.std.specs.Float.Ieee.{to_bits, of_bits};
ghost use Rattle.floats.specs.patterns.Domains.{positive_normal};

pub const LEAST_F32: f32 = 1.175_494_35e-38;

pub const MOST_F32: f32 = 3.402_823_47e38;

pub const LEAST_F64: f64 = 2.225_073_858_507_201_4e-308;

pub const MOST_F64: f64 = 1.797_693_134_862_315_7e308;

pub fn to_bits_f32(x: f32) -> u32
    ensures { result ≡ to_bits binary32 x }
{
    if x != x { 0x7FC0_0000 } else { f32::to_bits(x) }
}

pub fn to_bits_f64(x: f64) -> u64
    ensures { result ≡ to_bits binary64 x }
{
    if x != x {
        0x7FF8_0000_0000_0000
    } else {
        f64::to_bits(x)
    }
}

pub fn from_bits_f32(b: u32) -> f32
    ensures { result ≡ of_bits binary32 b }
{
    if (b & 0x7FFF_FFFF) > 0x7F80_0000 {
        0.0 / 0.0
    } else {
        f32::from_bits(b)
    }
}

pub fn from_bits_f64(b: u64) -> f64
    ensures { result ≡ of_bits binary64 b }
{
    if (b & 0x7FFF_FFFF_FFFF_FFFF) > 0x7FF0_0000_0000_0000 {
        0.0 / 0.0
    } else {
        f64::from_bits(b)
    }
}

// The first if b, else the second: loops over lanes that call it compile to selects and not to branches.
pub fn select<T: Copy>(b: bool, x: T, y: T) -> T
    ensures { result ≡ cond b x y }
{
    if b { x } else { y }
}

pub fn is_positive_normal_f32(x: f32) -> bool
    ensures { result ≡ positive_normal binary32 x }
{
    (LEAST_F32 <= x) & (x <= MOST_F32)
}

pub fn is_positive_normal_f64(x: f64) -> bool
    ensures { result ≡ positive_normal binary64 x }
{
    (LEAST_F64 <= x) & (x <= MOST_F64)
}
