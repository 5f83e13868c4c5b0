// A region of a frame: its quarters and their shares, which keypoints lie in it, and how strong they are.
#![tactic(auto)]

ghost use Rattle.std.specs.Prelude.{◌≡◌, cond, ◌^◌, ◌<◌, ◌≤◌, ltb};
ghost use Rattle.ieee.specs.F32.{float};
ghost use Rattle.params.specs.Limits.{max_side, max_keypoints};
ghost use Rattle.thin_order.specs.Place.{place, bare};
ghost use Rattle.thin_rule.specs.Rule.{points_in, quarter, share};
ghost use Rattle.thin_rule.specs.Strength.{strength, edge_at, edges_of, edged, Ordered};

use params::KEYPOINT_WORDS;

// The columns from left to below right, the rows from top to below bottom.
#[derive(Clone, Copy)]
pub struct Region {
    pub left: u32,
    pub right: u32,
    pub top: u32,
    pub bottom: u32,
}

// A region's edges, each as the bits of its float: a type of its own, so that no column is compared with bits.
#[derive(Clone, Copy)]
pub struct Edges {
    pub left: u32,
    pub right: u32,
    pub top: u32,
    pub bottom: u32,
}

// The quarter k of a region, in row order.
#[tactic(auto, unfolding(crate::specs::Rule::quarter))]
pub fn quarter_of(r: Region, k: usize) -> Region
    requires { Ordered r }
    ensures { result ≡ quarter r k }
{
    let x = r.left + (r.right - r.left) / 2;
    let y = r.top + (r.bottom - r.top) / 2;
    let (left, right) = if k % 2 == 0 {
        (r.left, x)
    } else {
        (x, r.right)
    };
    let (top, bottom) = if k < 2 { (r.top, y) } else { (y, r.bottom) };
    Region {
        left,
        right,
        top,
        bottom,
    }
}

// The share of a quota that the quarter k has.
#[tactic(auto, using(crate::proofs::Bytes::byte_is), unfolding(crate::specs::Rule::share))]
pub fn share_of(q: usize, k: usize) -> usize
    ensures { result ≡ share q k }
{
    q / 4 + usize::from(k < q % 4)
}

// A conversion in which nothing is rounded: that law of it stands here once.
pub fn whole(n: u32) -> f32
    requires { n ≤ max_side }
    ensures { result ≡ float n }
{
    n as f32
}

// The bits without the sign. Numbers from 0 on are in their order, and minus zero is with zero.
pub fn bare_of(w: u32) -> u32
    ensures { result ≡ bare w }
{
    w % 0x8000_0000
}

pub fn edge_at(n: u32) -> u32
    requires { n ≤ max_side }
    ensures { result ≡ edge_at n }
{
    bare_of(ieee::bits_of(whole(n)))
}

pub fn edges_of(r: Region) -> Edges
    requires { Ordered r }
    ensures { result ≡ edges_of r }
{
    Edges {
        left: edge_at(r.left),
        right: edge_at(r.right),
        top: edge_at(r.top),
        bottom: edge_at(r.bottom),
    }
}

// x and y between the edges: compared by their bits, without a branch.
#[tactic(auto, unfolding(crate::specs::Strength::edged))]
pub fn in_region(words: &[u32], e: Edges, p: usize) -> bool
    requires { p < points_in words.now }
    ensures { result ≡ edged words.now e p }
{
    let x = bare_of(words[KEYPOINT_WORDS * p]);
    let y = bare_of(words[KEYPOINT_WORDS * p + 1]);
    ((e.left <= x) & (x < e.right)) & ((e.top <= y) & (y < e.bottom))
}

// 1 where a is less than b: no comparison, so that no compiler makes a branch of it.
pub fn less(a: u32, b: u32) -> usize
    ensures { (result ≡ cond (ltb a b) 1 0) × (result ≤ 1) }
{
    1 - (a as usize + 0x1_0000_0000 - b as usize) / 0x1_0000_0000
}

#[tactic(auto, using(thin_order::proofs::Signs::place_low, thin_order::proofs::Signs::place_high))]
fn place_of(w: u32) -> u64
    ensures { (result ≡ place w) × (result < 2 ^ 32) }
{
    if w < 0x8000_0000 {
        u64::from(w) + 0x8000_0000
    } else {
        0x1_0000_0000 - u64::from(w)
    }
}

#[tactic(auto, unfolding(crate::specs::Strength::strength))]
pub fn strength_of(words: &[u32], p: usize) -> u64
    requires { (p < points_in words.now) × (points_in words.now ≤ max_keypoints) }
    ensures { result ≡ strength words.now p }
{
    place_of(words[KEYPOINT_WORDS * p + 3]) * 0x1_0000_0000 + (0xffff_ffff - (p as u64))
}
