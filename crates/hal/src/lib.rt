// Routines that stand in for the source's own: powers of two and the exponential.
// docs/ROUTINES.md has their steps, specs/ the same as definitions, specs/Rules.antt what is proved of those.
#![tactic(auto)]

mod pairs;

ghost use Rattle.std.specs.Prelude.{◌≡◌, true, ◌&&◌, ◌+◌, ◌/◌, ◌%◌, ◌<◌, ◌≤◌};
ghost use Rattle.std.specs.Float.{nan};
ghost use Rattle.std.specs.Float.Ieee.{le};
ghost use Rattle.hal.specs.Exp.{mix_of, scaled_of, power_of, exp2_of, in_down, exp_of};

use pairs::PAIRS;

// What each routine answers outside its range: a not-a-number.
pub fn outside() -> f32
    ensures { result ≡ nan }
{
    0.0 / 0.0
}

// From entry i to the next, g / 2^23 of the way (2^23 = 8388608).
fn mix(i: usize, g: u64) -> u64
    requires { (i < 256) × (g ≤ 8388608) }
    ensures { result ≡ mix_of i g }
{
    let (entry, rise) = PAIRS[i];
    u64::from(entry) + u64::from(rise) * g / 8388608
}

// m times 2^(s - 127), m from 2^23 to 2^24: the leading digit of m adds one to the field, or two, so that the field is s + 23 or s + 24.
fn scaled(m: u64, s: u64) -> f32
    requires { (8388608 ≤ m) × (m ≤ 16777216) × (0 < s) × (s ≤ 127) }
    ensures { result ≡ scaled_of m s }
{
    f32::from_bits((m + (s + 22) * 8388608) as u32)
}

// 2^(u / 2^31), times 2^(s - 104), where u is the last 38 bits of v: 7 for whole powers, 8 for the entry and 23 for the way to the next.
fn power(s: u64, v: u64) -> f32
    requires { (0 < s) × (s + v / 2147483648 % 128 ≤ 127) }
    ensures { result ≡ power_of s (v % 274877906944) }
{
    let k = v / 2147483648 % 128;
    let i = (v / 8388608 % 256) as usize;
    scaled(mix(i, v % 8388608), s + k)
}

// x lies in lo to hi.
pub fn within(x: f32, lo: f32, hi: f32) -> bool
    ensures { result ≡ (le lo x && le x hi) }
{
    lo <= x && x <= hi
}

// Adding 2^52 rounds x * 2^31 to a whole number, which is then the last 52 bits of the pattern; the exponent's field above them is nothing to `power`. 104 is the field
// of 2^-23, by which an entry (2^23 to 2^24) is scaled to 1 to 2.
pub fn exp2(x: f32) -> f32
    ensures { result ≡ exp2_of x }
{
    if within(x, 0.0, 2.0) {
        power(
            104,
            f64::to_bits(4503599627370496.0 + (x as f64) * 2147483648.0),
        )
    } else {
        outside()
    }
}

// 3098164009.3597403 is log2(e) * 2^31. Since 32 * log2(e) is 46.2, the exponent is counted from -47: 4503700559101952 is 2^52 + 47 * 2^31, and what is handed on goes
// from 1790483156, at -32, up to 47 * 2^31, at 0, besides the pattern's exponent. 57 is 104 - 47. For loops: x is in the range.
pub fn exp_in(x: f32) -> f32
    requires { in_down x ≡ true }
    ensures { result ≡ exp_of x }
{
    power(
        57,
        f64::to_bits(4503700559101952.0 + (x as f64) * 3098164009.3597403),
    )
}

pub fn exp(x: f32) -> f32
    ensures { result ≡ exp_of x }
{
    if within(x, -32.0, 0.0) {
        exp_in(x)
    } else {
        outside()
    }
}
