// The range of the angle and of the magnitude, which is that of the slopes of good samples.
#![tactic(auto)]

ghost use Rattle.std.specs.Prelude.{◌≡◌};
ghost use Rattle.hal_reach.specs.Reach.{in_angle};

// Neither dx nor dy is a NaN or above 2^21 = 2097152 in magnitude, twice the largest sample.
pub fn in_reach(dx: f32, dy: f32) -> bool
    ensures { result ≡ in_angle dx dy }
{
    ieee::abs(dx) <= 2097152.0 && ieee::abs(dy) <= 2097152.0
}
