// The refinement of a candidate: the moves by the offsets of the fit, and what it gives where it settles.
#![tactic(auto)]

ghost use Rattle.std.specs.Prelude.{◌≡◌, true, ◌+◌, ◌-◌, ◌≤◌, length};
ghost use Rattle.params.specs.Limits.{border, max_side, max_layers, max_octave};
ghost use Rattle.detect_keypoint.specs.Offsets.{small};
ghost use Rattle.detect_refine.specs.Moves.{huge, placed, moved, three, gone, walk, step_of};
ghost use Rattle.detect_refine.specs.Settle.{ended, refine_of};
ghost use Rattle.detect_refine.specs.Place.{Searched, Placed};

use detect_fit::{Offset, Patch};
use detect_keypoint::{Cell, RawKeypoint, Search};
use picture::Shape;

#[derive(Clone, Copy)]
pub enum Step {
    Lost,
    Stay(Offset),
    Go(Cell),
}

// Cells this near to an edge are not searched.
pub const BORDER: usize = 5;

// A candidate that is not settled after so many moves is dropped.
const MAX_MOVES: u32 = 5;

// The f32 nearest to 715,827,882, a third of the largest i32: 715,827,904. An offset up to it, rounded and added to a place, stays an i32 in the source.
const LIM: f32 = 715827882.0;

// All three offsets are below 0.5 in magnitude: no not-a-number is.
#[tactic(auto, unfolding(detect_keypoint::specs::Offsets::small))]
fn is_small(o: Offset) -> bool
    ensures { result ≡ small o }
{
    let a = ieee::abs(o.xi) < 0.5;
    let b = ieee::abs(o.xr) < 0.5;
    let c = ieee::abs(o.xc) < 0.5;
    a & (b & c)
}

// One of them is above the limit: no not-a-number is.
#[tactic(auto, unfolding(crate::specs::Moves::huge))]
fn is_huge(o: Offset) -> bool
    ensures { result ≡ huge o }
{
    let a = ieee::abs(o.xi) > LIM;
    let b = ieee::abs(o.xr) > LIM;
    let c = ieee::abs(o.xc) > LIM;
    a | (b | c)
}

// u, where it lies from lo to below hi.
#[tactic(auto, unfolding(crate::specs::Moves::placed))]
fn place(lo: usize, hi: usize, u: i64) -> Option<usize>
    ensures { result ≡ placed lo hi u }
{
    let n = usize::try_from(u).ok()?;
    ((lo <= n) & (n < hi)).then_some(n)
}

// v moved by the rounded offset x; a not-a-number moves by 0.
#[tactic(auto, unfolding(crate::specs::Moves::moved))]
fn move_by(lo: usize, hi: usize, v: usize, x: f32) -> Option<usize>
    requires { v ≤ max_side }
    ensures { result ≡ moved lo hi v x }
{
    place(lo, hi, v as i64 + i64::from(ieee_whole::round_to_i32(x)))
}

// The cell k moved by the rounded offsets, where that lies within the layers and the border.
fn move_cell(t: Shape, layers: usize, k: Cell, o: Offset) -> Option<Cell>
    requires width_le_max_side { (t.width ≤ max_side) × (t.height ≤ max_side) × (layers ≤ max_layers) }
    requires placed { Placed t layers k }
    ensures { gone result ≡ three (moved 1 (layers + 1) k.p o.xi) (moved border (t.height - border) k.r o.xr) (moved border (t.width - border) k.c o.xc) }
{
    let p = move_by(1, layers + 1, k.p, o.xi)?;
    let r = move_by(BORDER, t.height - BORDER, k.r, o.xr)?;
    let c = move_by(BORDER, t.width - BORDER, k.c, o.xc)?;
    Some(Cell { p, r, c })
}

// One step from the cell k with the offset o: it stays, is lost, or moves within the layers and the border.
#[tactic(auto, unfolding(crate::specs::Moves::walk))]
fn walk_by(t: Shape, layers: usize, k: Cell, o: Offset) -> Step
    requires width_le_max_side { (t.width ≤ max_side) × (t.height ≤ max_side) × (layers ≤ max_layers) }
    requires placed { Placed t layers k }
    ensures { result ≡ walk t layers k o }
{
    if is_small(o) {
        return Step::Stay(o);
    }
    if is_huge(o) {
        return Step::Lost;
    }
    match move_cell(t, layers, k, o) {
        Some(next) => Step::Go(next),
        None => Step::Lost,
    }
}

// One step on the samples about the cell k: lost where the determinant is 0.
#[tactic(auto, unfolding(crate::specs::Moves::step_of))]
pub fn step_of(t: Shape, layers: usize, k: Cell, patch: Patch) -> Step
    requires width_le_max_side { (t.width ≤ max_side) × (t.height ≤ max_side) × (layers ≤ max_layers) }
    requires placed { Placed t layers k }
    ensures { result ≡ step_of t layers k patch }
{
    let b = detect_fit::bend_of(patch);
    let det = detect_fit::det_of(b);
    if det == 0.0 {
        return Step::Lost;
    }
    walk_by(
        t,
        layers,
        k,
        detect_fit::offset_of(detect_fit::gradient_of(patch), b, det),
    )
}

// What a settled cell gives: dropped by its contrast or its edge, or the keypoint.
#[tactic(auto, unfolding(crate::specs::Settle::ended, detect_keypoint::specs::Keypoint::keypoint_of))]
fn end_at(s: Search, moves: u32, k: Cell, patch: Patch, o: Offset) -> Option<RawKeypoint>
    requires octave_le_max_octave { (s.octave ≤ max_octave) × (s.settings.layers ≤ max_layers) × (k.p ≤ max_layers) × (k.r ≤ max_side) × (k.c ≤ max_side) }
    requires o_value { small o ≡ true }
    ensures { result ≡ ended s moves k patch o }
{
    let contrast = detect_keypoint::contrast_of(patch, o);
    if detect_keypoint::is_dim(s.settings, contrast)
        || detect_keypoint::is_edgy(s.settings, patch)
    {
        return None;
    }
    Some(detect_keypoint::keypoint_of(s, moves, k, o, ieee::abs(contrast)))
}

// The refinement of the candidate at the cell k: it moves until it settles, at most so many times.
#[tactic(auto, using(crate::proofs::Settled::settle_lost, crate::proofs::Settled::settle_stay, crate::proofs::Settled::settle_none, crate::proofs::Steps::step_stay), unfolding(crate::specs::Settle::refine_of))]
pub fn refine(dog: &[f32], t: Shape, s: Search, k: Cell) -> Option<RawKeypoint>
    requires searched { Searched (length dog.now) t s }
    requires placed { Placed t s.settings.layers k }
    ensures { result ≡ refine_of dog.now t s k }
{
    let layers = s.settings.layers;
    let mut at = k;
    for moves in 0..MAX_MOVES {
        let patch = detect_fit::patch_at(dog, t, at.p, at.r, at.c);
        match step_of(t, layers, at, patch) {
            Step::Lost => return None,
            Step::Stay(o) => return end_at(s, moves, at, patch, o),
            Step::Go(next) => at = next,
        }
    }
    None
}
