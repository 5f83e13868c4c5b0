// A binary32 to a whole number, for every bit pattern: floor, rounding to the nearest, and the casts to an i32. Each public function is the operation of `ieee`'s page F32
// that its contract names, or two of them in one. Rules I5 to I7. The library's `floor` and `round_ties_even` take half as long again.
#![tactic(auto)]

ghost use Rattle.std.specs.Prelude.{◌≡◌, false, ◌*◌, ◌^◌, ◌<◌, ◌≤◌, min};
ghost use Rattle.std.specs.Float.{binary32};
ghost use Rattle.std.specs.Float.Ieee.{round, to_signed};
ghost use Rattle.std.specs.Float.Ieee.Scale.{finite};
ghost use Rattle.ieee.specs.Whole.{saturate};
ghost use Rattle.ieee.specs.F32.{floor_of, rounded, to_i32};
ghost use Rattle.ieee_whole.specs.Parts.{before_cut, whole_size, whole};

// Where a number between two whole ones goes: toward zero, toward minus infinity, or to the nearest, a tie to the even one.
#[derive(Clone, Copy)]
enum Way {
    Zero,
    Down,
    Near,
}

// What is added to the size m before its last h digits are cut, so that ±m goes the way w.
fn before_cut(w: Way, s: bool, m: u64, h: u32) -> u64
    requires { (1 ≤ h) × (h ≤ 40) }
    ensures { result ≡ before_cut w s m (2 ^ h) }
{
    match w {
        Way::Zero => 0,
        Way::Down => if s { (1u64 << h) - 1 } else { 0 },
        Way::Near => (1u64 << (h - 1)) - 1 + (m >> h) % 2,
    }
}

// The size of the whole number that ±m / 2^d goes to. A shift of 24 digits by 40 leaves what a longer one does. From 25 on all do (24 digits are then below half of the
// unit), and up to 62 no sum wraps: 40 is one of these.
fn whole_size(w: Way, s: bool, m: u64, d: u32) -> u64
    requires { (m < 2 ^ 24) × (1 ≤ d) }
    ensures value { result ≡ whole_size w s m (2 ^ d) }
    ensures small { result ≤ 2 ^ 24 }
{
    let h = d.min(40);
    (m + before_cut(w, s, m, h)) >> h
}

// ±k as an f32. A zero has the sign too.
fn signed_f32(s: bool, k: u64) -> f32
    requires { k ≤ 2 ^ 24 }
    ensures { result ≡ round binary32 s k 1 }
{
    packing::with_sign(s, (k as f32).to_bits())
}

// x gone to a whole number. From 2^23 on, where m * 2^e over 2^149 has e >= 149, every f32 is whole.
fn to_whole(w: Way, x: f32) -> f32
    ensures { result ≡ whole w binary32 x }
{
    if ieee::is_finite(x) {
        let p = packing::unpack(x);
        if p.exponent >= 149 {
            x
        } else {
            signed_f32(
                p.sign,
                whole_size(w, p.sign, p.significand, 149 - p.exponent),
            )
        }
    } else {
        x
    }
}

// roundToIntegralTowardNegative, IEEE 754-2019, 5.3.1: a zero keeps its sign.
pub fn floor(x: f32) -> f32
    ensures { result ≡ floor_of x }
{
    to_whole(Way::Down, x)
}

// roundToIntegralTiesToEven, IEEE 754-2019, 5.3.1: a result of zero has x's sign.
pub fn round_ties_even(x: f32) -> f32
    ensures { result ≡ rounded x }
{
    to_whole(Way::Near, x)
}

// ±k as an i32, where it is in range.
fn signed_i32(s: bool, k: u64) -> i32
    requires { k < 2 ^ 31 }
    ensures { result ≡ saturate 31 s k }
{
    if s { -(k as i32) } else { k as i32 }
}

// ±k as an i32, stopped at the ends of the range.
fn clamped_i32(s: bool, k: u64) -> i32
    ensures { result ≡ saturate 31 s k }
{
    if k >= 0x8000_0000 {
        if s { i32::MIN } else { i32::MAX }
    } else {
        signed_i32(s, k)
    }
}

// m * 2^d where it is below 2^31, and else any number from there on: of a d of 31 and more nothing but m = 0 is below, and 24 digits can be shifted by 40 in a u64.
fn shifted_up(m: u64, d: u32) -> u64
    requires { m < 2 ^ 24 }
    ensures { min result (2 ^ 31) ≡ min (m * 2 ^ d) (2 ^ 31) }
{
    if d >= 40 {
        if m == 0 { 0 } else { 0x8000_0000 }
    } else {
        m << d
    }
}

// An infinity is the end of the range on its side, and a NaN is 0.
fn infinite_to_i32(x: f32) -> i32
    requires { finite x ≡ false }
    ensures { result ≡ to_signed 31 x }
{
    if x > 0.0 {
        i32::MAX
    } else if x < 0.0 {
        i32::MIN
    } else {
        0
    }
}

// x gone to a whole number, as an i32: stopped at the ends of the range, and 0 for a NaN.
fn whole_to_i32(w: Way, x: f32) -> i32
    ensures { result ≡ to_i32 (whole w binary32 x) }
{
    if ieee::is_finite(x) {
        let p = packing::unpack(x);
        if p.exponent >= 149 {
            clamped_i32(p.sign, shifted_up(p.significand, p.exponent - 149))
        } else {
            signed_i32(
                p.sign,
                whole_size(w, p.sign, p.significand, 149 - p.exponent),
            )
        }
    } else {
        infinite_to_i32(x)
    }
}

// Rust's `x as i32`: toward zero (rule I7).
pub fn to_i32(x: f32) -> i32
    ensures { result ≡ to_i32 x }
{
    whole_to_i32(Way::Zero, x)
}

// `to_i32(floor(x))` in one.
pub fn floor_to_i32(x: f32) -> i32
    ensures { result ≡ to_i32 (floor_of x) }
{
    whole_to_i32(Way::Down, x)
}

// `to_i32(round_ties_even(x))` in one.
pub fn round_to_i32(x: f32) -> i32
    ensures { result ≡ to_i32 (rounded x) }
{
    whole_to_i32(Way::Near, x)
}
