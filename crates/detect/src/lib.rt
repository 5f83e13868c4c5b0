// Detection: the keypoints of one layer of a stack of difference planes, counted and written as words.
#![tactic(auto)]

ghost use Rattle.std.specs.Prelude.{◌≡◌, false, cond, ◌≤◌, length, OnOk};
ghost use Rattle.params.specs.Limits.{max_layers};
ghost use Rattle.params.specs.Table.{contrast_wrong, all_good};
ghost use Rattle.params.specs.Answers.{Done, Refused, told, fault_told};
ghost use Rattle.detect_keypoint.specs.Search.{search_of};
ghost use Rattle.detect_refine.specs.Place.{Searched};
ghost use Rattle.detect.specs.Entry.{extrema_answer, extrema_out};
ghost use Rattle.detect.specs.Form.{form_fault};

use detect_keypoint::Search;
use detect_room::BORDERS;
use params::{Refusal, Settings};
use picture::Shape;

// The answer where there is no cell to search.
fn nothing(dog: &[f32]) -> Result<usize, Refusal>
    ensures { told result ≡ cond (all_good dog.now) (Done 0) (Refused 6) }
{
    if samples::all_good(dog) {
        Ok(0)
    } else {
        Err(Refusal::Samples)
    }
}

// The first check that fails of those that ask nothing of the samples but how many there are.
#[tactic(auto, using(crate::proofs::Faults::fits, crate::proofs::Faults::searched, crate::proofs::Faults::contrast_right), unfolding(crate::specs::Form::form_fault, params::specs::Table::first_fault, params::specs::Table::length_wrong))]
fn fault(len: usize, t: Shape, layer: usize, octave: u32, s: Settings) -> Result<(), Refusal>
    ensures value { fault_told result ≡ form_fault len t layer octave s }
    ensures searched { OnOk result (Searched len t (search_of layer octave s)) }
    ensures contrast_value { OnOk result (contrast_wrong s.contrast ≡ false) }
{
    if params::shape_wrong(t.width, t.height) {
        return Err(Refusal::Shape);
    }
    if params::layers_wrong(t.planes, layer, s.layers) {
        return Err(Refusal::Layers);
    }
    if len != t.planes * t.height * t.width {
        return Err(Refusal::Length);
    }
    if params::settings_wrong(s, octave) {
        return Err(Refusal::Settings);
    }
    Ok(())
}

// The search of a layer, with the threshold of the settings.
pub fn search_of(layer: usize, octave: u32, s: Settings) -> Search
    requires { (contrast_wrong s.contrast ≡ false) × (1 ≤ s.layers) × (s.layers ≤ max_layers) }
    ensures { result ≡ search_of layer octave s }
{
    Search {
        layer,
        octave,
        threshold: detect_threshold::threshold_of(s.contrast, s.layers),
        settings: s,
    }
}

// The keypoints of one layer of a stack of difference planes, as words.
pub fn find_extrema(
    dog: &[f32],
    t: Shape,
    layer: usize,
    octave: u32,
    s: Settings,
    out: &mut [u32],
) -> Result<usize, Refusal>
    ensures value { told result ≡ extrema_answer dog.now t layer octave s (length out.old) }
    ensures out_after { out.new ≡ extrema_out dog.now t layer octave s out.old }
{
    fault(dog.len(), t, layer, octave, s)?;
    if t.width <= BORDERS || t.height <= BORDERS {
        return nothing(dog);
    }
    detect_room::search(dog, t, search_of(layer, octave, s), out)
}
