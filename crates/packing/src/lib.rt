// Floats taken apart and put together: a finite float as its sign, significand and exponent, and `pack`, the one function that rounds an exact result and packs it.
// Every exponent is a natural number: an f32 is m * 2^x over 2^149, an f64 over 2^1074. (149 = 126 + 23 and 1074 = 1022 + 52: the smallest normal number's exponent and
// the digits behind its leading one.) 2139095040 = 0x7f80_0000 is the infinity's pattern. The bounds 4096, 2000 and 1024 on an exponent only say that no sum wraps.
#![tactic(auto)]

ghost use Rattle.std.specs.Prelude.{◌≡◌, Bool, true, cond, ℕ, ◌+◌, ◌-◌, ◌*◌, ◌%◌, ◌^◌, ◌/◌, ◌<◌, ◌≤◌, ◌==◌, leb};
ghost use Rattle.std.specs.Float.{binary32};
ghost use Rattle.std.specs.Float.Ieee.{round, sum, of_bits, top};
ghost use Rattle.std.specs.Float.Ieee.Nearest.{closest};
ghost use Rattle.std.specs.Float.Ieee.Scale.{finite};
ghost use Rattle.packing.specs.Parts.{Splits, Sticky, Aligned, Normalized};

// n / 2^sh to the nearest whole number: roundTiesToEven, IEEE 754-2019, 4.3.1 (rule I1).
fn half_even(n: u64, sh: u32) -> u64
    requires { (1 ≤ sh) × (sh ≤ 64) }
    ensures { result ≡ closest n (2 ^ sh) }
{
    let shorter = sh - 1;
    let halves = n >> shorter;
    let cut = halves / 2;
    if halves % 2 == 0 {
        cut
    } else if halves << shorter == n {
        cut + cut % 2
    } else {
        cut + 1
    }
}

// The bits below the sign of m * 2^x / 2^1074, rounded to binary32. The leading zeros of the significand set its shift and the exponent (rule I11). The
// exponent's field is added to the significand, leading digit and all: so a significand that rounds up to the next power of two carries into the exponent, a subnormal one
// into the normal numbers, and the largest one into the infinity.
fn unsigned_bits(m: u64, x: u32) -> u32
    requires { x ≤ 4096 }
    ensures small { result ≤ 2139095040 }
    ensures value { (s : Bool) → of_bits binary32 (cond s (top binary32) 0 + result) ≡ round binary32 s (m * 2 ^ x) (2 ^ 1074) }
{
    if m == 0 {
        return 0;
    }
    let z = u64::leading_zeros(m);
    let n = m << z;
    // The number lies from 2^(e - 1) to 2^e, over 2^1074.
    let e = x + (64 - z);
    // It is normal from 2^-126 on, where e - 1 - 1074 = -126: 949 = 1074 - 126 + 1.
    if e >= 949 {
        // The exponent's field is k + 1, one by the leading digit. 255 is the infinity's, so 254 and more overflow.
        let k = e - 949;
        if k >= 254 {
            return 0x7f80_0000;
        }
        // 24 of 64 digits stay: 40 = 64 - 24.
        let q = half_even(n, 40) as u32;
        k * 0x80_0000 + q
    } else {
        // d digits fewer stay. With 25 fewer the number is below half of the smallest subnormal one.
        let d = 949 - e;
        if d > 24 {
            return 0;
        }
        half_even(n, 40 + d) as u32
    }
}

// The sign in its place.
fn sign_bit(s: bool) -> u32
    ensures { result ≡ cond s (top binary32) 0 }
{
    if s { 0x8000_0000 } else { 0 }
}

// The float with the sign s and the bits b below it. A sum and no branch: the signs of a picture's samples are mixed, so that a branch on them is mispredicted.
pub fn with_sign(s: bool, b: u32) -> f32
    requires { b ≤ 2139095040 }
    ensures { result ≡ of_bits binary32 (cond s (top binary32) 0 + b) }
{
    f32::from_bits(sign_bit(s) + b)
}

// m * 2^x / 2^1074 with the sign s, rounded once to binary32: subnormals, overflow and ties as IEEE 754 has them. What an operation loses below m it leaves in m as an odd last digit.
pub fn pack(s: bool, m: u64, x: u32) -> f32
    requires { x ≤ 4096 }
    ensures { result ≡ round binary32 s (m * 2 ^ x) (2 ^ 1074) }
{
    with_sign(s, unsigned_bits(m, x))
}

// A finite float: its sign, and its size, significand * 2^exponent units of the format's smallest value.
#[derive(Clone, Copy)]
pub struct Parts {
    pub sign: bool,
    pub significand: u64,
    pub exponent: u32,
}

// The parts of the pattern b of a format with its sign at SIGN and its leading digit at ONE. A field of 0 is a zero or a subnormal: no leading digit, and the exponent of
// field 1.
fn take_apart<const SIGN: u64, const ONE: u64>(b: u64) -> Parts
    requires { (0 < SIGN) × (0 < ONE) × (ONE ≤ 2 ^ 52) × (b % SIGN / ONE < 2 ^ 32) }
    ensures sign { result.sign ≡ leb SIGN b }
    ensures significand { result.significand ≡ cond (b % SIGN / ONE == 0) (b % ONE) (ONE + b % ONE) }
    ensures exponent { result.exponent ≡ b % SIGN / ONE - 1 }
{
    let e = b % SIGN / ONE;
    let d = b % ONE;
    let m = if e == 0 { d } else { ONE + d };
    Parts {
        sign: b >= SIGN,
        significand: m,
        exponent: e.saturating_sub(1) as u32,
    }
}

// A finite f32: 24 digits, and an exponent's field of at most 254, which is 253 above the smallest.
pub fn unpack(v: f32) -> Parts
    requires { finite v ≡ true }
    ensures { Splits 149 24 253 v result.sign result.significand result.exponent }
{
    take_apart::<0x8000_0000, 0x80_0000>(u64::from(v.to_bits()))
}

// A finite f64: 53 digits, and a field of at most 2046.
pub fn unpack64(v: f64) -> Parts
    requires { finite v ≡ true }
    ensures { Splits 1074 53 2045 v result.sign result.significand result.exponent }
{
    take_apart::<0x8000_0000_0000_0000, 0x10_0000_0000_0000>(v.to_bits())
}

// b / 2^d, with what is lost kept as an odd last digit (the sticky bit). As b is below 2^62, nothing else is left of it from a shift by 62 on; 63 is the longest that a
// u64 has. The 14 zeros at b's end (48 digits raised to 62) keep the odd digit far below the leading one.
fn shift_sticky(b: u64, d: u32) -> u64
    requires { (0 < b) × (b < 2 ^ 62) × (b % 2 ^ 14 ≡ 0) }
    ensures { Sticky b d result }
{
    if d >= 63 {
        return 1;
    }
    let h = b >> d;
    if h << d == b { h } else { h / 2 * 2 + 1 }
}

// ±a * 2^e ± b * 2^(e - d), over 2^1074, rounded once. A sum that cancels to nothing is +0 (IEEE 754-2019, 6.3; rule I1).
fn add_aligned(s: bool, a: u64, t: bool, b: u64, d: u32, e: u32) -> f32
    requires { Aligned a b d e }
    ensures { result ≡ sum binary32 s (a * 2 ^ e) t (b * 2 ^ (e - d)) (2 ^ 1074) }
{
    let c = shift_sticky(b, d);
    if s == t {
        pack(s, a + c, e)
    } else if c < a {
        pack(s, a - c, e)
    } else if a < c {
        pack(t, c - a, e)
    } else {
        0.0
    }
}

// The shift that brings m's leading digit to place 61 (63 - 2), which leaves room for a carry above and 14 digits below (62 - 48).
pub fn normalizing_shift(m: u64) -> u32
    requires { (0 < m) × (m < 2 ^ 48) }
    ensures { Normalized m result }
{
    u64::leading_zeros(m) - 2
}

// ±m * 2^x ± n * 2^y, over 2^298, rounded once: products of two f32s lie over 2^(149 + 149). 776 = 1074 - 298 goes from there to the f64's 2^1074. Two zeros of one
// sign keep it, and two of unlike signs are +0 (IEEE 754-2019, 6.3).
pub fn add_scaled(s: bool, m: u64, x: u32, t: bool, n: u64, y: u32) -> f32
    requires { (m < 2 ^ 48) × (n < 2 ^ 48) × (x ≤ 1024) × (y ≤ 1024) }
    ensures { result ≡ sum binary32 s (m * 2 ^ x) t (n * 2 ^ y) (2 ^ 298) }
{
    if m == 0 {
        if n == 0 {
            return pack(s & t, 0, 0);
        }
        return pack(t, n, y + 776);
    }
    if n == 0 {
        return pack(s, m, x + 776);
    }
    let z = normalizing_shift(m);
    let w = normalizing_shift(n);
    let a = m << z;
    let b = n << w;
    let i = x + 776 - z;
    let j = y + 776 - w;
    if j <= i {
        add_aligned(s, a, t, b, i - j, i)
    } else {
        add_aligned(t, b, s, a, j - i, j)
    }
}
