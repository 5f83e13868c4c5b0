// The orientation of a keypoint: an oriented keypoint for each dominant direction of the gradients about its cell.
#![tactic(auto)]

ghost use Rattle.std.specs.Prelude.{◌≡◌, ◌≤◌, length, OnOk};
ghost use Rattle.params.specs.Limits.{max_octave};
ghost use Rattle.params.specs.Answers.{fault_told};
ghost use Rattle.orient_words.specs.Oriented.{oriented_told};
ghost use Rattle.orient.specs.Keypoint.{cell_wrong, octave_in, octave_wrong, floats_wrong, scale_of, scale_wrong, keypoint_wrong};
ghost use Rattle.orient.specs.Entry.{window_at, orient_fault, orient_answer, orient_out};
ghost use Rattle.orient.specs.Given.{directions_of};
ghost use Rattle.orient.specs.Accepted.{Aimed, Ready};

use detect_keypoint::RawKeypoint;
use orient_window::Window;
use orient_words::{Directions, Oriented};
use params::Refusal;
use picture::Size;

// ---- number 5

#[tactic(auto, unfolding(crate::specs::Keypoint::cell_wrong))]
fn cell_wrong(s: Size, k: RawKeypoint) -> bool
    ensures { result ≡ cell_wrong s k }
{
    !(((k.rr as usize) < s.height) & ((k.cc as usize) < s.width))
}

#[tactic(auto, unfolding(crate::specs::Keypoint::octave_wrong))]
fn octave_wrong(word: u32) -> bool
    ensures { result ≡ octave_wrong word }
{
    let octave = word % 256;
    let layer = word / 256 % 256;
    (octave > 15) | (!((1 <= layer) & (layer <= 15)) | (word >= 16777216))
}

#[tactic(auto, unfolding(crate::specs::Keypoint::floats_wrong))]
fn floats_wrong(k: RawKeypoint) -> bool
    ensures { result ≡ floats_wrong k }
{
    !(ieee::is_finite(k.x)
        & (ieee::is_finite(k.y)
            & (ieee::is_finite(k.size) & (ieee::is_finite(k.response) & ieee::is_finite(k.xi)))))
}

// The scale in the keypoint's own octave.
fn scale_of(k: RawKeypoint) -> f32
    requires { octave_in k.octave ≤ max_octave }
    ensures { result ≡ scale_of k }
{
    let power = 1u64 << (k.octave % 256);
    k.size * 0.5 / (power as f32)
}

#[tactic(auto, unfolding(crate::specs::Keypoint::scale_wrong))]
fn scale_wrong(k: RawKeypoint) -> bool
    requires { octave_in k.octave ≤ max_octave }
    ensures { result ≡ scale_wrong k }
{
    let scale = scale_of(k);
    !((0.125 <= scale) & (scale <= 64.0))
}

// A field is outside its range.
#[tactic(auto, unfolding(crate::specs::Keypoint::keypoint_wrong))]
pub fn keypoint_wrong(s: Size, k: RawKeypoint) -> bool
    ensures { result ≡ keypoint_wrong s k }
{
    cell_wrong(s, k) || (octave_wrong(k.octave) || (floats_wrong(k) | scale_wrong(k)))
}

#[tactic(auto, unfolding(crate::specs::Entry::window_at))]
fn window_at(s: Size, k: RawKeypoint) -> Window
    requires { Aimed s k }
    ensures { result ≡ window_at s k }
{
    orient_window::window_of(s, k.rr as usize, k.cc as usize, scale_of(k))
}

// The first fault in the order of the table; room is tested later.
#[tactic(auto, unfolding(crate::specs::Entry::orient_fault, params::specs::Table::first_fault, params::specs::Table::length_wrong))]
fn fault(img: &[f32], s: Size, k: RawKeypoint) -> Result<(), Refusal>
    ensures value { fault_told result ≡ orient_fault img.now s k }
    ensures ready { OnOk result (Ready img.now s k) }
{
    if params::shape_wrong(s.width, s.height) {
        return Err(Refusal::Shape);
    }
    if img.len() != s.height * s.width {
        return Err(Refusal::Length);
    }
    if keypoint_wrong(s, k) {
        return Err(Refusal::Fields);
    }
    if !orient_window::window_good(img, window_at(s, k)) {
        return Err(Refusal::Samples);
    }
    Ok(())
}

// ---- the directions

fn angles_about(img: &[f32], s: Size, k: RawKeypoint) -> Directions
    requires { Ready img.now s k }
    ensures { result ≡ directions_of img.now s k }
{
    let g = orient_gather::tally_of(img, window_at(s, k));
    Directions {
        angles: orient_peaks::angles_of(&g.tally.bins),
        read: g.read,
    }
}

// An oriented keypoint for each peak of the gradients about a keypoint, as six words each, and the number of cells read.
pub fn assign_orientations(
    img: &[f32],
    s: Size,
    k: RawKeypoint,
    out: &mut [u32],
) -> Result<Oriented, Refusal>
    ensures value { oriented_told result ≡ orient_answer img.now s k (length out.old) }
    ensures out_after { out.new ≡ orient_out img.now s k out.old }
{
    fault(img, s, k)?;
    orient_words::give(k, angles_about(img, s, k), out)
}
