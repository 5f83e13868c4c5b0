// The angle of a pair, which stands in for the source's own.
// docs/ROUTINES.md has its steps, specs/ the same as definitions, specs/Rules.antt what is proved of those.
#![tactic(auto)]

mod turns;

ghost use Rattle.std.specs.Prelude.{◌≡◌, ◌+◌, true, not, T};
ghost use Rattle.std.specs.Float.Ieee.{is_nan};
ghost use Rattle.ieee.specs.F32.{◌⊕◌, abs_of};
ghost use Rattle.hal_reach.specs.Reach.{in_angle};
ghost use Rattle.hal_angle.specs.Numbers.{shift};
ghost use Rattle.hal_angle.specs.Turns.{place_of};
ghost use Rattle.hal_angle.specs.Angle.{turn_at, quarter_of, along_of, direction_of, angle_of};

use turns::{LINES, QUARTERS, Quarter};

// |x|, of an x that is a number, with no branch: `ieee::abs` tests for the others first.
fn size(x: f32) -> f32
    requires { T (not (is_nan x)) }
    ensures { result ≡ abs_of x }
{
    f32::from_bits(f32::to_bits(x) % 0x8000_0000)
}

// The angle at u, from -63 to 63, in a quarter with this middle: by line k, at the step that is next to u.
fn along(middle: f32, u: f32) -> f32
    requires { T (not (is_nan (u ⊕ shift))) }
    ensures { result ≡ along_of middle u }
{
    let r = u + 12582975.0;
    let (start, growth) = LINES[(f32::to_bits(r) % 128) as usize];
    let d = u - (r - 12582975.0);
    middle + start + d * growth
}

// The quarter that the signs name: four numbers of the table.
fn quarter(left: bool, down: bool) -> &'static Quarter
    ensures middle { result.now.middle ≡ turn_at (place_of left down) }
    ensures steps { result.now.steps ≡ turn_at (place_of left down + 1) }
    ensures least { result.now.least ≡ turn_at (place_of left down + 2) }
    ensures largest { result.now.largest ≡ turn_at (place_of left down + 3) }
{
    &QUARTERS[usize::from(left) + 2 * usize::from(down)]
}

// The angle in the quarter that the signs name, `ahead` being from -1 to 1. Nothing here branches once it is compiled.
fn direction(left: bool, down: bool, ahead: f32) -> f32
    requires { T (not (is_nan ahead)) }
    ensures { result ≡ direction_of (quarter_of left down) ahead }
{
    let row = quarter(left, down);
    let q = along(row.middle, ahead * row.steps);
    bounds::lesser(bounds::greater(row.least, q), row.largest)
}

// For loops: both are in the range.
pub fn angle_in(dx: f32, dy: f32) -> f32
    requires { in_angle dx dy ≡ true }
    ensures { result ≡ angle_of dx dy }
{
    let a = size(dx);
    let b = size(dy);
    let s = b + a;
    if s > 0.0 {
        direction(dx < 0.0, dy < 0.0, (b - a) / s)
    } else {
        0.0
    }
}

#[tactic(auto, unfolding(crate::specs::Angle::angle_of))]
pub fn angle(dx: f32, dy: f32) -> f32
    ensures { result ≡ angle_of dx dy }
{
    if hal_reach::in_reach(dx, dy) {
        angle_in(dx, dy)
    } else {
        hal::outside()
    }
}
