// Routines that stand in for the source's own: sine and cosine of degrees.
// docs/ROUTINES.md has their steps, specs/ the same as definitions, specs/Rules.antt what is proved of those.
#![tactic(auto)]

ghost use Rattle.std.specs.Prelude.{◌≡◌};
ghost use Rattle.hal_turn.specs.Turn.{hold_of, negated_of, quarter_sine_of, sin_of, cos_of};

// p brought into 0 to top, and +0 where it is not above 0.
#[tactic(auto, unfolding(crate::specs::Turn::hold_of))]
fn hold(p: f32, top: f32) -> f32
    ensures { result ≡ hold_of p top }
{
    if p > 0.0 { bounds::lesser(p, top) } else { 0.0 }
}

// -v, with +0 for a zero.
#[tactic(auto, unfolding(crate::specs::Turn::negated_of))]
fn negated(v: f32) -> f32
    ensures { result ≡ negated_of v }
{
    if v > 0.0 { -v } else { 0.0 }
}

// The sine of a degrees, a in 0 to 90. The odd polynomial of degree nine whose largest error on 0 to 90 is least (3.4e-9), its coefficients rounded to f32 and the first
// one place higher, so that it passes 1 at 90 and is held there.
#[tactic(auto, unfolding(crate::specs::Turn::quarter_sine_of))]
fn quarter_sine(a: f32) -> f32
    ensures { result ≡ quarter_sine_of a }
{
    let z = a * a;
    hold(
        a * (0.017453294
            - z * (0.00000088609517
                - z * (0.000000000013495314
                    - z * (0.00000000000000009768468 - z * 0.00000000000000000000038929425)))),
        1.0,
    )
}

#[tactic(auto, unfolding(crate::specs::Turn::sin_of))]
pub fn sin(d: f32) -> f32
    ensures { result ≡ sin_of d }
{
    if hal::within(d, 0.0, 360.0) {
        if d <= 90.0 {
            quarter_sine(d)
        } else if d <= 180.0 {
            quarter_sine(180.0 - d)
        } else if d <= 270.0 {
            negated(quarter_sine(d - 180.0))
        } else {
            negated(quarter_sine(360.0 - d))
        }
    } else {
        hal::outside()
    }
}

#[tactic(auto, unfolding(crate::specs::Turn::cos_of))]
pub fn cos(d: f32) -> f32
    ensures { result ≡ cos_of d }
{
    if hal::within(d, 0.0, 360.0) {
        if d <= 90.0 {
            quarter_sine(90.0 - d)
        } else if d <= 180.0 {
            negated(quarter_sine(d - 90.0))
        } else if d <= 270.0 {
            negated(quarter_sine(270.0 - d))
        } else {
            quarter_sine(d - 270.0)
        }
    } else {
        hal::outside()
    }
}
