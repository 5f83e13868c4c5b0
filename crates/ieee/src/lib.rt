// Of IEEE 754-2019, on binary32 and for every bit pattern: bits, the absolute value, whether a value is finite. Each public function is the
// operation of `specs/F32.antt` that its contract names. Rules I8, I9; fused multiply-add and narrowing (I1, I2, I4) are in `ieee_fused`, roots (I3) in `ieee_root`,
// whole numbers (I5 to I7) in `ieee_whole`.
#![tactic(auto)]

ghost use Rattle.std.specs.Prelude.{◌≡◌};
ghost use Rattle.std.specs.Float.{binary64};
ghost use Rattle.std.specs.Float.Ieee.{of_bits};
ghost use Rattle.std.specs.Float.Ieee.Scale.{finite};
ghost use Rattle.ieee.specs.F32.{f32, bits_of, abs_of};

use std::num::{f32_from_bits_with_nan, f32_to_bits_with_nan, f64_from_bits_with_nan};

// Neither an infinity nor a NaN (IEEE 754-2019, 5.7.2).
pub fn is_finite(v: f32) -> bool
    ensures { result ≡ finite v }
{
    v.is_finite()
}

// The bits of a float, made total: a NaN's are 2143289344 = 0x7fc0_0000, the exponent's field and the highest digit behind it, whatever pattern the machine holds
// (rule I9).
pub fn bits_of(x: f32) -> u32
    ensures { result ≡ bits_of x }
{
    f32_to_bits_with_nan(x)
}

// The float of any bit pattern. Every pattern above an infinity's is the one NaN.
pub fn of_bits(b: u32) -> f32
    ensures { result ≡ f32 b }
{
    f32_from_bits_with_nan(b)
}

// The f64 of any bit pattern.
pub fn of_bits64(b: u64) -> f64
    ensures { result ≡ of_bits binary64 b }
{
    f64_from_bits_with_nan(b)
}

// The absolute value (IEEE 754-2019, 5.5.1): the sign bit cleared, a zero's too. A NaN stays one.
// One selection, where the library's `abs` makes two: the scan asks it of every sample.
pub fn abs(x: f32) -> f32
    ensures { result ≡ abs_of x }
{
    if x != x {
        x
    } else {
        f32::from_bits(f32::to_bits(x) % 0x8000_0000)
    }
}
