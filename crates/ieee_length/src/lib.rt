// The length of a pair of binary32s: the root of the fused x * x + (y * y), rounded as IEEE 754-2019 has it, for every bit pattern. Rule F8.
// A lent table of cubics guesses the root, and an exact test accepts it; without a table, and where the guess fails, the sum's root is taken as `ieee_root` has it.
#![tactic(auto)]

ghost use Rattle.std.specs.Prelude.{◌≡◌, ◌+◌, ◌*◌, ◌^◌, ◌<◌, ◌≤◌, true, ◌&&◌, from_bits, nat_le, nat_lt, IfSome};
ghost use Rattle.std.specs.Float.{binary64};
ghost use Rattle.std.specs.Float.Ieee.Scale.{finite};
ghost use Rattle.ieee.specs.F32.{◌⊗◌, fused, root_of};
ghost use Rattle.ieee_root.specs.Parts.{RootBits};
ghost use Rattle.ieee_length.specs.Raised.{Raised, digits_bits, radicand_of};
ghost use Rattle.ieee_length.specs.Mild.{pieces, small, all_mild};

// The length of (x, y), in one: the root of the fused x * x + (y * y) (rule F8). Level ground is common, and has no short path below, so the zeros go first.
// 0x47ef_ffff_e000_0000 is the f64 of the largest f32: what lies below it has no sign bit, and does not round to the infinity.
pub fn length(x: f32, y: f32) -> f32
    ensures { result ≡ root_of (fused x x (y ⊗ y)) }
{
    if x == 0.0 && y == 0.0 {
        return 0.0;
    }
    let q = y * y;
    match ieee_fused::fused_wide(x, x, q) {
        Some(n) if n < 0x47ef_ffff_e000_0000 => ieee_root::normal_root(ieee_fused::narrow_bits(n)),
        _ => ieee_root::root_general(ieee_fused::fma_general(x, x, q)),
    }
}

// The f64 x * x + (y * y), as its pattern, with half a unit of the f32 added (2^28), so that the last 29 digits can be dropped, and one to the exponent (2^52), so that the
// exponent's last digit is the parity that a root asks for.
fn raised_sum(x: f32, y: f32) -> u64
    requires { finite (fused x x (y ⊗ y)) ≡ true }
    ensures { Raised (fused x x (y ⊗ y)) result }
{
    ieee_fused::wide_fma(x, x, y * y).to_bits() + 0x10_0000_1000_0000
}

// The significand of the rounded sum, from 1 to below 2, doubled where the exponent is odd.
fn raised_digits(n: u64) -> f64
    ensures { result ≡ from_bits binary64 (digits_bits n) }
{
    f64::from_bits(n % 0x20_0000_0000_0000 / 0x2000_0000 * 0x2000_0000 + 0x3ff0_0000_0000_0000)
}

// The same as a whole number, the a of `checked_root`: 70368744177664 = 2^46.
fn radicand(n: u64) -> u64
    ensures { result ≡ radicand_of n }
{
    ((raised_digits(n) * 70368744177664.0) as i64) as u64
}

// Piece i of the cubics at a, and 2^52 = 4503599627370496 more, so that the last digits are a whole number. No contract says which: who asks has to test it.
fn cubic_at(cubics: &[f64; 256], i: usize, a: f64) -> f64
    requires fact_1 { all_mild cubics.now ≡ true }
    requires fact_2 { (i < pieces) × (small 2 a ≡ true) }
    ensures { finite result ≡ true }
{
    cubics[i]
        + a * (cubics[64 + i] + a * (cubics[128 + i] + a * cubics[192 + i]))
        + 4503599627370496.0
}

// Whether k is the nearest to the root of a: a lies above k^2 - k and not above k^2 + k, as in `checked_root`, in one comparison. A difference below zero wraps, and is large.
fn is_nearest(a: u64, k: u64) -> bool
    requires { (0 < a) × (a < 2 ^ 48) × (k < 2 ^ 25) }
    ensures { result ≡ (nat_lt (k * k) (a + k) && nat_le a (k * k + k)) }
{
    (a + k - 1).wrapping_sub(k * k) < 2 * k
}

// The pattern of the length of (x, y) by the cubics. 0x3820_0000_1000_0000 is the raised 2^-126 (0x3810.., and what is added). i is the last digit of the exponent with
// the five digits behind it. That the sum was no middle between two f32s is asked last, since it hardly ever is one. The exponent's half is e / 2 + 449, where (e + 126) / 2
// is e / 2 + 63: 386 = 449 - 63.
#[inline]
fn length_guess(cubics: &[f64; 256], x: f32, y: f32) -> Option<u32>
    requires { (all_mild cubics.now ≡ true) × (finite (fused x x (y ⊗ y)) ≡ true) }
    ensures { IfSome result (RootBits (fused x x (y ⊗ y))) }
{
    let n = raised_sum(x, y);
    if n >= 0x3820_0000_1000_0000 {
        let i = (n / 0x8000_0000_0000 % 64) as usize;
        let k = cubic_at(cubics, i, raised_digits(n)).to_bits() % 0x200_0000;
        if is_nearest(radicand(n), k) && n % 0x2000_0000 != 0 {
            return Some(((n / 0x20_0000_0000_0000 - 386) * 0x80_0000 + k) as u32);
        }
    }
    None
}

// The length of (x, y) where its square is finite, by a table of cubics, four coefficients for each of 64 pieces, in four rows of 64. They only guess the root: the guess is
// tested, so that the answer is the same whatever the table has, as long as no sum of its numbers overflows.
pub fn length_with(cubics: &[f64; 256], x: f32, y: f32) -> f32
    requires { (all_mild cubics.now ≡ true) × (finite (fused x x (y ⊗ y)) ≡ true) }
    ensures { result ≡ root_of (fused x x (y ⊗ y)) }
{
    match length_guess(cubics, x, y) {
        Some(r) => f32::from_bits(r),
        None => length(x, y),
    }
}
