// What the descriptor is asked with for an oriented keypoint: position and scale in its octave's cells, and the angle turned round.
#![tactic(auto)]

ghost use Rattle.std.specs.Prelude.{◌≡◌, ◌≤◌};
ghost use Rattle.params.specs.Limits.{max_octave};
ghost use Rattle.descriptor_inputs.specs.Inputs.{octave_wrong, octave_of, oriented_wrong, shrink_of, reversed_of, inputs_of, inputs_told};

use orient_words::OrientedKeypoint;
use params::Refusal;
use picture::Spot;

// Number 4: octave not in 0 to 15.
fn octave_wrong(octave: i32) -> bool
    ensures { result ≡ octave_wrong octave }
{
    (octave < 0) | (octave > 15)
}

// Number 5: a position or size that is not finite, a size below 0, an angle outside 0 to 360, or a response that is no number, which alone differs from itself.
fn oriented_wrong(o: OrientedKeypoint) -> bool
    ensures { result ≡ oriented_wrong o }
{
    !(ieee::is_finite(o.x)
        & (ieee::is_finite(o.y)
            & (ieee::is_finite(o.size)
                & ((0.0 <= o.size)
                    & (((0.0 <= o.angle) & (o.angle <= 360.0)) & (o.response == o.response))))))
}

// 1 / 2^octave.
fn shrink(octave: u32) -> f32
    requires { octave ≤ max_octave }
    ensures { result ≡ shrink_of octave }
{
    let power = 1u64 << octave;
    1.0 / (power as f32)
}

// The angle counted the other way round, in degrees (rule P1); what lies within f32 epsilon, 2^-23 = 0.00000011920929, of 360 is 0.
fn reversed(angle: f32) -> f32
    ensures { result ≡ reversed_of angle }
{
    let t = 360.0 - angle;
    if ieee::abs(t - 360.0) < 0.00000011920929 {
        0.0
    } else {
        t
    }
}

// The inputs of an oriented keypoint in its octave, 0 to 15.
pub fn descriptor_inputs(o: OrientedKeypoint, octave: i32) -> Result<Spot, Refusal>
    ensures { inputs_told result ≡ inputs_of o octave }
{
    if octave_wrong(octave) {
        return Err(Refusal::Settings);
    }
    if oriented_wrong(o) {
        return Err(Refusal::Fields);
    }
    let by = shrink(octave as u32);
    Ok(Spot {
        x: o.x * by,
        y: o.y * by,
        scale: o.size * by * 0.5,
        angle: reversed(o.angle),
    })
}
