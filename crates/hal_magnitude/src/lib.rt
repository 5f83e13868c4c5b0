// The magnitude of a pair, which stands in for the source's own.
// docs/ROUTINES.md has its steps, specs/ the same as definitions, specs/Rules.antt what is proved of those.
#![tactic(auto)]

mod cubics;

ghost use Rattle.std.specs.Prelude.{◌≡◌, true};
ghost use Rattle.hal_reach.specs.Reach.{in_angle};
ghost use Rattle.hal_magnitude.specs.Cubics.{cubics};
ghost use Rattle.hal_magnitude.specs.Magnitude.{magnitude_of};

use cubics::CUBICS;

#[tactic(auto, unfolding(crate::specs::Magnitude::magnitude_of))]
pub fn magnitude(dx: f32, dy: f32) -> f32
    ensures { result ≡ magnitude_of dx dy }
{
    if hal_reach::in_reach(dx, dy) {
        ieee_length::length(dx, dy)
    } else {
        hal::outside()
    }
}

// The table of the magnitude's guesses. A wrong number in it would change no magnitude, so that no other contract says which they are.
fn guesses() -> &'static [f64; 256]
    ensures { result.now ≡ cubics }
{
    &CUBICS
}

// For loops: both are in the range.
pub fn magnitude_in(dx: f32, dy: f32) -> f32
    requires { in_angle dx dy ≡ true }
    ensures { result ≡ magnitude_of dx dy }
{
    ieee_length::length_with(guesses(), dx, dy)
}
