// The square root of a binary32, rounded as IEEE 754-2019 has it, for every bit pattern. Rule I3.
// A guess answers for the common case, and an exact test accepts it. Where that cannot answer, the general path takes the root of the whole significand in a u64, and
// rounds once, in `packing::pack`. So rule I11 has the root, made from whole numbers by their leading zeros: the library's `sqrt` is the processor's.
#![tactic(auto)]

ghost use Rattle.std.specs.Prelude.{◌≡◌, ◌+◌, ◌*◌, ◌<◌, ◌≤◌, T, IfSome};
ghost use Rattle.std.specs.Float.{binary32};
ghost use Rattle.std.specs.Float.Ieee.{of_bits};
ghost use Rattle.std.specs.Float.Ieee.Positive.{positive};
ghost use Rattle.ieee.specs.Root.{sqrt};
ghost use Rattle.ieee.specs.Operations.{IsRoot};
ghost use Rattle.ieee.specs.F32.{f32, root_of};
ghost use Rattle.ieee_root.specs.Parts.{RootBits};

// The largest r with r * r <= n, a digit at a time (the root of 64 digits has 32): only where the guess of a root fails, and for subnormals. The library's `isqrt`, which
// halves a range, takes a third longer.
fn isqrt(n: u64) -> u64
    ensures { (result * result ≤ n) × (n < (result + 1) * (result + 1)) }
{
    let mut r: u64 = 0;
    for k in (0..32u32).rev() {
        let t = r + (1u64 << k);
        if t * t <= n {
            r = t;
        }
    }
    r
}

// The root of a finite x above zero by the integer root of its significand, raised by its leading zeros to 62 or 63 digits so that the exponent is even. A root that is
// not whole is handed to `pack` with an odd last digit.
// x = m * 2^(e - 149) = a * 2^(w - w % 2 - 300), with 300 = 149 + 151, so that sqrt(x) = sqrt(a) * 2^(w / 2 - 150), which over 2^1074 is 2 * sqrt(a) * 2^(w / 2 + 923):
// 923 = 1074 - 151. 151 itself is an odd number above every z: odd, since 149 is and half of the sum is wanted.
fn root_positive(x: f32) -> f32
    requires { T (positive x) }
    ensures { result ≡ sqrt binary32 x }
{
    let p = packing::unpack(x);
    let z = packing::normalizing_shift(p.significand);
    let w = p.exponent + 151 - z;
    let a = p.significand << (z + w % 2);
    let r = isqrt(a);
    if r * r == a {
        packing::pack(false, 2 * r, w / 2 + 923)
    } else {
        packing::pack(false, r * 2 + 1, w / 2 + 923)
    }
}

// sqrt(2 d) / 2 + 2^51, nearly, from y, nearly 1 / sqrt(2 d), and g = d * y: three of Newton's steps. 2251799813685248 = 2^51: an f64 from there on has one half as its
// last digit, so that the sum's last digits are sqrt(2 d) as a whole number.
fn newton_steps(g: f64, y: f64) -> f64 {
    let r = 1.5 - g * y;
    let g1 = g * r;
    let y1 = y * r;
    let r1 = 1.5 - g1 * y1;
    let g2 = g1 * r1;
    let y2 = y1 * r1;
    g2 * (1.5 - g2 * y2) + 2251799813685248.0
}

// The last digits of this are, as a rule, the significand of the root of the normal f32 with the pattern b. No contract says so: who asks has to test them.
// d is the pattern of a / 2, with the a of `checked_root`: b's significand in an f64's place (0x2000_0000 = 2^29, 29 = 52 - 23), times 2^45 or 2^46 by the last digit of the
// exponent, flipped by the + 0x80_0000 (0x42c0.. is 2^45, field 1023 + 45 = 0x42c).
// 0x5fde_eb50_c7b5_37a9 = 3/2 * 2^52 * (1023 - 0.0450333) - 2^51. A pattern is nearly 2^52 * (1023 + logarithm to base 2), so this less d / 2 is nearly the pattern of
// 1 / sqrt(2 d): 0.0450333 levels the error above and below, and 2^51 is half an exponent, for the 2. The start is within 3.5 %, and the steps within 0.18 %, 4.6e-6 and
// 3.2e-11, where half a digit of the significand is 3e-8.
fn root_guess(b: u32) -> f64 {
    let d = u64::from((b % 0x100_0000 + 0x80_0000) % 0x100_0000) * 0x2000_0000
        + 0x42c0_0000_0000_0000;
    let y = f64::from_bits(0x5fde_eb50_c7b5_37a9 - d / 2);
    newton_steps(f64::from_bits(d) * y, y)
}

// The pattern of the root of the normal f32 with the pattern b, if the last digits of t are it. The test is exact: q is the nearest to the root of a when a
// lies above q^2 - q and not above q^2 + q, the squares of the midpoints. A root is never a midpoint and never subnormal, so there is nothing to round.
// x = m * 2^(e - 149) = a * 2^(e - e % 2 - 172), with 172 = 149 + 23, so that its root is sqrt(a) * 2^(e / 2 - 86) = q * 2^(e / 2 + 63 - 149): 126 = 2 * 63. A q of 2^24,
// which takes 25 digits (0x200_0000 = 2^25), carries into the exponent.
#[inline]
fn checked_root(b: u32, t: f64) -> Option<u32>
    requires { (8388608 ≤ b) × (b < 2139095040) }
    ensures { IfSome result (RootBits (f32 b)) }
{
    if t > 0.0 {
        let e = b / 0x80_0000 - 1;
        let a = ((0x80_0000 + b % 0x80_0000) as u64) << (23 + e % 2);
        let q = t.to_bits() % 0x200_0000;
        let n = q * q;
        if n < a + q && a <= n + q {
            return Some((e + 126) / 2 * 0x80_0000 + q as u32);
        }
    }
    None
}

// The root of the normal f32 with the pattern b: by the guess, and where that is wrong, by the general path.
pub fn normal_root(b: u32) -> f32
    requires { (8388608 ≤ b) × (b < 2139095040) }
    ensures { result ≡ sqrt binary32 (of_bits binary32 b) }
{
    match checked_root(b, root_guess(b)) {
        Some(r) => f32::from_bits(r),
        None => root_general(f32::from_bits(b)),
    }
}

// The square root: squareRoot, IEEE 754-2019, 5.4.1. The root of -0 is -0, that of a number below zero a NaN. The second clause says what makes it the root: no value of
// the format is nearer.
pub fn sqrt(x: f32) -> f32
    ensures value { result ≡ root_of x }
    ensures ieee { IsRoot binary32 x result }
{
    if x > 0.0 {
        let b = x.to_bits();
        if b >= 0x80_0000 && b < 0x7f80_0000 {
            return normal_root(b);
        }
    }
    root_general(x)
}

// The square root of any x, with no guess.
pub fn root_general(x: f32) -> f32
    ensures { result ≡ sqrt binary32 x }
{
    if x > 0.0 {
        if x < f32::INFINITY {
            root_positive(x)
        } else {
            x
        }
    } else if x == 0.0 {
        x // the root of -0 is -0
    } else {
        f32::NAN
    }
}
