// Even cover for a frame: of its keypoints, the positions that it keeps at a quota.
#![tactic(auto)]

ghost use Rattle.std.specs.Prelude.{◌≡◌, true, ◌&&◌, ℕ, ◌≤◌, ◌<◌, length, get_or, OnOk};
ghost use Rattle.std.specs.Float.Ieee.Scale.{finite};
ghost use Rattle.lists.specs.Ranges.{every};
ghost use Rattle.params.specs.Limits.{max_side, max_keypoints};
ghost use Rattle.params.specs.Answers.{told, fault_told};
ghost use Rattle.thin_rule.specs.Rule.{points_in, response_of, inside, kept};
ghost use Rattle.thin_rule.specs.Strength.{Ordered, Sound};
ghost use Rattle.thin_part.specs.Runs.{Beside};
ghost use Rattle.thin.specs.Entry.{frame, point_right, fault_of, thin_answer, thin_out};
ghost use Rattle.thin.specs.Frames.{sides_of, sided, Accepted, Given, missing};

use params::{KEYPOINT_WORDS, Refusal};
use thin_rule::Region;

const MAX_DEPTH: u32 = 12;

const MAX_KEYPOINTS: usize = 0x1_0000_0000;

// Writes 0, 1, .., n - 1.
fn list_all(out: &mut [u32], n: usize)
    requires { (n ≤ length out.old) × (n ≤ max_keypoints) }
    ensures beside { Beside out.old out.new 0 n }
    ensures by_index { (k : ℕ) → k < n → get_or out.new k 0 ≡ k }
{
    for k in 0..n {
        out[k] = k as u32;
    }
}

// How many a region keeps, where there is less room than that. Room for the quota is room enough; with less they are counted.
#[tactic(auto, using(crate::proofs::Keeps::few_kept), unfolding(crate::specs::Frames::missing))]
fn missing(words: &[u32], r: Region, q: usize, depth: u32, room: usize) -> Option<usize>
    requires ordered { Ordered r × Sound words.now }
    requires le_q { 1 ≤ q }
    ensures { result ≡ missing (kept words.now depth r q) room }
{
    if q <= room {
        return None;
    }
    let m = thin_region::count(words, r, q, depth);
    if m <= room { None } else { Some(m) }
}

// What a region keeps, put in order where it was written.
fn keep_some(
    words: &[u32],
    r: Region,
    q: usize,
    depth: u32,
    out: &mut [u32],
) -> Result<usize, Refusal>
    requires ordered { Ordered r × Sound words.now }
    requires le_q { 1 ≤ q }
    ensures { Given (kept words.now depth r q) out.old (told result) out.new }
{
    if let Some(m) = missing(words, r, q, depth, out.len()) {
        return Err(Refusal::Room(m));
    }
    let n = thin_region::thin_all(words, r, q, depth, out);
    thin_part::arrange(words, out, 0, n, 0, words.len() / KEYPOINT_WORDS);
    Ok(n)
}

// A list within its quota is kept whole, and nothing is looked for.
fn keep(words: &[u32], r: Region, q: usize, depth: u32, out: &mut [u32]) -> Result<usize, Refusal>
    requires ordered { Ordered r × Sound words.now }
    requires le_q { (1 ≤ q) × ((i : ℕ) → i < points_in words.now → inside words.now r i ≡ true) }
    ensures { Given (kept words.now depth r q) out.old (told result) out.new }
{
    let n = words.len() / KEYPOINT_WORDS;
    if q < n {
        return keep_some(words, r, q, depth, out);
    }
    if out.len() < n {
        return Err(Refusal::Room(n));
    }
    list_all(out, n);
    Ok(n)
}

// The frame's sides, as floats.
#[derive(Clone, Copy)]
pub struct Sides {
    pub width: f32,
    pub height: f32,
}

fn sides_of(w: usize, h: usize) -> Sides
    requires { (w ≤ max_side) × (h ≤ max_side) }
    ensures { result ≡ sides_of w h }
{
    Sides {
        width: thin_rule::whole(w as u32),
        height: thin_rule::whole(h as u32),
    }
}

// A keypoint in the frame, compared as numbers, with a finite response.
#[tactic(auto, using(crate::proofs::Faults::zero_is), unfolding(crate::specs::Frames::sided))]
fn point_right(words: &[u32], e: Sides, i: usize) -> bool
    requires { i < points_in words.now }
    ensures { result ≡ (sided words.now e i && finite (response_of words.now i)) }
{
    let x = ieee::of_bits(words[KEYPOINT_WORDS * i]);
    let y = ieee::of_bits(words[KEYPOINT_WORDS * i + 1]);
    let t = ieee::of_bits(words[KEYPOINT_WORDS * i + 3]);
    (((0.0 <= x) & (x < e.width)) & ((0.0 <= y) & (y < e.height))) & ieee::is_finite(t)
}

fn points_right(words: &[u32], w: usize, h: usize) -> bool
    requires { (w ≤ max_side) × (h ≤ max_side) }
    ensures { result ≡ every (points_in words.now) (point_right words.now w h) }
{
    let e = sides_of(w, h);
    (0..words.len() / KEYPOINT_WORDS).all(|i| point_right(words, e, i))
}

fn fault(words: &[u32], w: usize, h: usize, q: usize, depth: u32) -> Result<(), Refusal>
    ensures value { fault_told result ≡ fault_of words.now w h q depth }
    ensures accepted { OnOk result (Accepted words.now w h q) }
{
    if params::shape_wrong(w, h) {
        return Err(Refusal::Shape);
    }
    let n = words.len() / KEYPOINT_WORDS;
    if ((q == 0) | (MAX_DEPTH < depth))
        | ((words.len() % KEYPOINT_WORDS != 0) | (MAX_KEYPOINTS < n))
    {
        return Err(Refusal::Fields);
    }
    if !points_right(words, w, h) {
        return Err(Refusal::Fields);
    }
    Ok(())
}

fn frame_of(w: usize, h: usize) -> Region
    requires { (w ≤ max_side) × (h ≤ max_side) }
    ensures { result ≡ frame w h }
{
    Region {
        left: 0,
        right: w as u32,
        top: 0,
        bottom: h as u32,
    }
}

// Even cover: the positions of the keypoints that a frame keeps, ascending.
pub fn thin_frame(
    w: usize,
    h: usize,
    words: &[u32],
    q: usize,
    depth: u32,
    out: &mut [u32],
) -> Result<usize, Refusal>
    ensures value { told result ≡ thin_answer words.now w h q depth (length out.old) }
    ensures out_after { out.new ≡ thin_out words.now w h q depth out.old }
{
    fault(words, w, h, q, depth)?;
    keep(words, frame_of(w, h), q, depth, out)
}
