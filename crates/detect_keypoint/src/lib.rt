// A keypoint of a cell that settled: the tests of contrast and edge, and its fields.
#![tactic(auto)]

ghost use Rattle.std.specs.Prelude.{◌≡◌, ◌^◌, ◌≤◌, true, pos};
ghost use Rattle.ieee.specs.F32.{abs_of, ◌<ᶠ◌, float};
ghost use Rattle.ieee.specs.Numbers.{half};
ghost use Rattle.params.specs.Limits.{max_side, max_layers, max_octave};
ghost use Rattle.detect_keypoint.specs.Offsets.{small};
ghost use Rattle.detect_keypoint.specs.Keypoint.{contrast_of, dim, edgy, code_of, keypoint_with};

use detect_fit::{Offset, Patch};
use params::Settings;

// A cell of a stack: plane, row and column.
#[derive(Clone, Copy)]
pub struct Cell {
    pub p: usize,
    pub r: usize,
    pub c: usize,
}

// What is searched, and with what: one layer of a stack, whose octave it is, and the threshold that follows from the settings.
#[derive(Clone, Copy)]
pub struct Search {
    pub layer: usize,
    pub octave: u32,
    pub threshold: f32,
    pub settings: Settings,
}

// A refined keypoint. Its whole numbers are never negative, so they stand as the words that they go out as.
#[derive(Clone, Copy)]
pub struct RawKeypoint {
    pub x: f32,
    pub y: f32,
    pub size: f32,
    pub response: f32,
    pub octave: u32,
    pub layer: u32,
    pub xi: f32,
    pub cc: u32,
    pub rr: u32,
    pub moves: u32,
}

// The contrast at the offset.
#[tactic(auto, unfolding(crate::specs::Keypoint::contrast_of))]
pub fn contrast_of(patch: Patch, o: Offset) -> f32
    ensures { result ≡ contrast_of patch o }
{
    let g = detect_fit::gradient_of(patch);
    let s = ieee_fused::mul_add(g.ds, o.xi, ieee_fused::mul_add(g.dy, o.xr, g.dx * o.xc));
    ieee_fused::mul_add(patch.im, detect_fit::IMG_SCALE, s * 0.5)
}

// The contrast times the layers is below the setting.
#[tactic(auto, unfolding(crate::specs::Keypoint::dim))]
pub fn is_dim(s: Settings, contrast: f32) -> bool
    requires { s.layers ≤ max_layers }
    ensures { result ≡ dim s contrast }
{
    ieee::abs(contrast) * (s.layers as f32) < ieee_fused::narrow(s.contrast)
}

// The plane's bend about the cell is that of an edge: determinant not above 0, or too small beside the trace.
#[tactic(auto, unfolding(crate::specs::Keypoint::edgy))]
pub fn is_edgy(s: Settings, patch: Patch) -> bool
    ensures { result ≡ edgy s patch }
{
    let b = detect_fit::bend_of(patch);
    let tr = b.xx + b.yy;
    let det = detect_fit::mul_sub(b.xx, b.yy, b.xy, b.xy);
    let et = ieee_fused::narrow(s.edge);
    (det <= 0.0) | (tr * tr * et >= (et + 1.0) * (et + 1.0) * det)
}

// 2^octave as an f32.
fn scale_of(octave: u32) -> f32
    requires { octave ≤ max_octave }
    ensures { result ≡ float (2 ^ octave) }
{
    2u32.pow(octave) as f32
}

// (xi + 0.5) * 255, rounded: the third byte of the octave word. It lies in 0 to 255, so that a cast without a sign gives what the source's signed one gives.
fn code_of(xi: f32) -> u32
    requires { (abs_of xi <ᶠ half) ≡ true }
    ensures { (pos result ≡ code_of xi) × (result ≤ 255) }
{
    std::num::saturating_f32_to_u32(ieee_whole::round_ties_even((xi + 0.5) * 255.0))
}

// The keypoint that settled at the cell k with the offset o after so many moves; `response` is the contrast there, without its sign.
pub fn keypoint_of(s: Search, moves: u32, k: Cell, o: Offset, response: f32) -> RawKeypoint
    requires octave_le_max_octave { (s.octave ≤ max_octave) × (s.settings.layers ≤ max_layers) × (k.p ≤ max_layers) × (k.r ≤ max_side) × (k.c ≤ max_side) }
    requires o_value { small o ≡ true }
    ensures { result ≡ keypoint_with s moves k o response }
{
    let scale = scale_of(s.octave);
    let power = hal::exp2((k.p as f32 + o.xi) / s.settings.layers as f32);
    RawKeypoint {
        x: (k.c as f32 + o.xc) * scale,
        y: (k.r as f32 + o.xr) * scale,
        size: ieee_fused::narrow(s.settings.sigma) * power * scale * 2.0,
        response,
        octave: s.octave + k.p as u32 * 256 + code_of(o.xi) * 65536,
        layer: k.p as u32,
        xi: o.xi,
        cc: k.c as u32,
        rr: k.r as u32,
        moves,
    }
}
