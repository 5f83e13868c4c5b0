// The threshold of detection: which magnitude a cell has to exceed. Rule D1.
#![tactic(auto)]

ghost use Rattle.std.specs.Prelude.{◌≡◌, ◌≤◌, false};
ghost use Rattle.params.specs.Limits.{max_layers};
ghost use Rattle.params.specs.Table.{contrast_wrong};
ghost use Rattle.detect_threshold.specs.Threshold.{level_of, threshold_of, threshold_told, threshold_answer, threshold_number, threshold_value};

use params::{MAX_LAYERS, Refusal};

// Half of the contrast, over the layers, times 255: rule D1, whose order decides the last bit.
fn level_of(contrast: f64, layers: usize) -> f64
    requires { layers ≤ max_layers }
    ensures { result ≡ level_of contrast layers }
{
    0.5 * contrast / (layers as f64) * 255.0
}

// The threshold: the level's floor, as f32.
pub fn threshold_of(contrast: f64, layers: usize) -> f32
    requires { (contrast_wrong contrast ≡ false) × (1 ≤ layers) × (layers ≤ max_layers) }
    ensures { result ≡ threshold_of contrast layers }
{
    // No level is below zero, so that this is its floor; the library's `floor` takes half as long again.
    ieee_fused::narrow(level_of(contrast, layers).trunc())
}

// The entry: the threshold, or a refusal for the layers or the contrast.
pub fn extrema_threshold(contrast: f64, layers: usize) -> Result<f32, Refusal>
    ensures { threshold_told result ≡ threshold_answer contrast layers }
{
    if (layers == 0) | (layers > MAX_LAYERS) {
        return Err(Refusal::Layers);
    }
    if params::contrast_wrong(contrast) {
        return Err(Refusal::Settings);
    }
    Ok(threshold_of(contrast, layers))
}

// The number of the threshold's answer, and the threshold beside it, 0 where it is refused.
pub fn threshold_number(answer: Result<f32, Refusal>) -> u32
    ensures { result ≡ threshold_number (threshold_told answer) }
{
    params::number_of(answer)
}

pub fn threshold_value(answer: Result<f32, Refusal>) -> f32
    ensures { result ≡ threshold_value (threshold_told answer) }
{
    answer.unwrap_or(0.0)
}
