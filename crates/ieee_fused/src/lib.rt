// Fused multiply-add and narrowing of IEEE 754-2019, on binary32, for every operand. Each public function is the operation of `ieee/specs/F32.antt` that its contract
// names, or a step of the short path that `ieee_length` takes too. Rules I1, I2, I4.
// Both have a short path for the common case. Where that cannot answer, the general path works on whole significands in a u64, normalised by their leading zeros, and
// rounds once, in `packing::pack`. So rule I11 has them, by leading zeros; the library's `mul_add` is no quicker, and its narrowing takes three times as long.
#![tactic(auto)]

ghost use Rattle.std.specs.Prelude.{◌≡◌, true, IfSome};
ghost use Rattle.std.specs.Float.{binary32, binary64};
ghost use Rattle.std.specs.Float.Ieee.{of_bits};
ghost use Rattle.std.specs.Float.Ieee.Scale.{finite};
ghost use Rattle.ieee.specs.Operations.{IsFma, IsConverted};
ghost use Rattle.ieee.specs.F32.{fused, narrowed};
ghost use Rattle.ieee.specs.Fused.{fma, convert};
ghost use Rattle.ieee.specs.Parts.{RoundsOnce, narrow_bits, FusedWide};

use std::num::f64_to_bits_with_nan;

// Whether the pattern is of an f64 in the range of the normal f32s, and not in the middle between two of them. Then one more rounding does no harm: what an f64 result
// lost is too little to bring it to a middle. 0x3810.. is 2^-126 (field 1023 - 126 = 0x381), 0x47f0.. is 2^128 (field 1023 + 128 = 0x47f). Of 53 digits 24 stay, so that
// 29 go: 0x2000_0000 = 2^29, and the middle is 0x1000_0000 = 2^28.
fn rounds_once(n: u64) -> bool
    ensures { (result ≡ true → RoundsOnce n) × (RoundsOnce n → result ≡ true) }
{
    let m = n % 0x8000_0000_0000_0000;
    m >= 0x3810_0000_0000_0000 && m < 0x47f0_0000_0000_0000 && n % 0x2000_0000 != 0x1000_0000
}

// The pattern, but for the sign, of the nearest f32 of such a pattern's f64: the exponent's bias exchanged (0x3800.. is 1023 - 127 = 0x380 in the exponent's place), half a
// unit added, and 29 digits dropped. A carry goes into the exponent by itself.
pub fn narrow_bits(n: u64) -> u32
    requires { RoundsOnce n }
    ensures { result ≡ narrow_bits n }
{
    ((n % 0x8000_0000_0000_0000 - 0x3800_0000_0000_0000 + 0x1000_0000) / 0x2000_0000) as u32
}

// The f32 itself.
fn narrow_once(n: u64) -> f32
    requires { RoundsOnce n }
    ensures { result ≡ convert binary32 (of_bits binary64 n) }
{
    packing::with_sign(n >= 0x8000_0000_0000_0000, narrow_bits(n))
}

// An f64 as an f32, rounded once: convertFormat, IEEE 754-2019, 5.4.2. Rust's `x as f32`.
pub fn narrow(x: f64) -> f32
    ensures value { result ≡ narrowed x }
    ensures ieee { IsConverted binary32 x result }
{
    let n = f64_to_bits_with_nan(x);
    if rounds_once(n) {
        narrow_once(n)
    } else if x.is_finite() {
        let p = packing::unpack64(x);
        packing::pack(p.sign, p.significand, p.exponent)
    } else if x > 0.0 {
        f32::INFINITY
    } else if x < 0.0 {
        f32::NEG_INFINITY
    } else {
        f32::NAN
    }
}

// a * b + c, rounded once, of three finite numbers: the product of two significands of 24 digits is exact in 48. It lies over 2^(149 + 149), and so c is raised by 149.
fn fma_finite(a: f32, b: f32, c: f32) -> f32
    requires { (finite a ≡ true) × (finite b ≡ true) × (finite c ≡ true) }
    ensures { result ≡ fma binary32 a b c }
{
    let p = packing::unpack(a);
    let q = packing::unpack(b);
    let r = packing::unpack(c);
    packing::add_scaled(
        p.sign != q.sign,
        p.significand * q.significand,
        p.exponent + q.exponent,
        r.sign,
        r.significand,
        r.exponent + 149,
    )
}

// a * b + c of three finite numbers, rounded once to an f64: 53 digits hold the product of two f32s whole.
pub fn wide_fma(a: f32, b: f32, c: f32) -> f64
    requires { (finite a ≡ true) × (finite b ≡ true) × (finite c ≡ true) }
    ensures { result ≡ fma binary64 a b c }
{
    let p = (a as f64) * (b as f64);
    p + (c as f64)
}

// The pattern of the f64 sum, where one more rounding makes it the f32's.
#[inline]
pub fn fused_wide(a: f32, b: f32, c: f32) -> Option<u64>
    ensures { IfSome result (FusedWide a b c) }
{
    if ieee::is_finite(a * b + c) {
        let n = wide_fma(a, b, c).to_bits();
        if rounds_once(n) {
            return Some(n);
        }
    }
    None
}

// a * b + c of any three, rounded once, with no short path. An infinity or a NaN among a and b makes the product exact, so the two operations do. Beside a finite
// product a c that is not finite stands, though the plain product may overflow. A rare call needs no short path, so it is public.
pub fn fma_general(a: f32, b: f32, c: f32) -> f32
    ensures { result ≡ fused a b c }
{
    if !ieee::is_finite(a) || !ieee::is_finite(b) {
        return a * b + c;
    }
    if !ieee::is_finite(c) {
        return c;
    }
    fma_finite(a, b, c)
}

// a * b + c, rounded once: fusedMultiplyAdd, IEEE 754-2019, 5.4.1. Rust's `a.mul_add(b, c)`. The f64 sum answers where one more rounding is proved harmless.
pub fn mul_add(a: f32, b: f32, c: f32) -> f32
    ensures value { result ≡ fused a b c }
    ensures ieee { IsFma binary32 a b c result }
{
    match fused_wide(a, b, c) {
        Some(n) => narrow_once(n),
        None => fma_general(a, b, c),
    }
}

// a * w + c, rounded once, as `mul_add` has it: for callers whose w is a constant, a quarter or a sixteenth. Such a part of an a from 2^-100 on is far from the subnormal
// numbers, and so exact, as that of a zero is: then the sum rounds once by itself.
pub fn add_part(a: f32, w: f32, c: f32) -> f32
    ensures { result ≡ fused a w c }
{
    if ((w == 0.25) | (w == 0.0625))
        && ((a >= 0.0000000000000000000000000000007888609052210118) | (a == 0.0))
    {
        a * w + c
    } else {
        mul_add(a, w, c)
    }
}
