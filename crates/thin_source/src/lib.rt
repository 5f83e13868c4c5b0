// A region's keypoints, looked for in a source: counted, written out, cut at a strength, held in a run, and parted for its quarters.
#![tactic(auto)]

ghost use Rattle.std.specs.Prelude.{◌≡◌, false, cond, ◌&&◌, ◌+◌, ◌^◌, ◌≤◌, ◌<◌, leb, ltb, length, set};
ghost use Rattle.params.specs.Limits.{max_keypoints};
ghost use Rattle.counts.specs.Counts.{counted};
ghost use Rattle.thin_rule.specs.Rule.{points_in, many};
ghost use Rattle.thin_rule.specs.Strength.{strength, strong, edged, Ordered, Sound};
ghost use Rattle.thin_source.specs.Sources.{candidate, found, Stands, Covers, Reaches, source_of, Split, is_all, from_of, to_of};
ghost use Rattle.thin_source.specs.Adds.{Added};

use params::KEYPOINT_WORDS;
use thin_part::Cut;
use thin_rule::{Edges, Region};

// So few of a region are found one by one.
const FEW: usize = 8;

// Where a region's keypoints are looked for: among all positions from the first number to below the second, or among those that the lent list holds there.
#[derive(Clone, Copy)]
pub enum Source {
    All(usize, usize),
    Held(usize, usize),
}

// Gone over by ranges of places: how many came before a place bounds the sums on the way, which a closure or an iterator would have to carry besides.
impl Source {
    // Its places, from the first to below the second.
    fn places(self) -> (usize, usize)
        ensures { (result.0 ≡ from_of self) × (result.1 ≡ to_of self) }
    {
        match self {
            Source::All(from, to) | Source::Held(from, to) => (from, to),
        }
    }

    // The position at a place, which is the place itself where all are looked at.
    #[tactic(auto, unfolding(crate::specs::Sources::candidate))]
    fn candidate(self, s: &[u32], k: usize) -> usize
        requires { is_all self ≡ false → k < length s.now }
        ensures { result ≡ candidate (is_all self) s.now k }
    {
        match self {
            Source::All(_, _) => k,
            Source::Held(_, _) => s[k] as usize,
        }
    }
}

// The least and the largest strength of a list, or less and more.
#[derive(Clone, Copy)]
pub struct Reach {
    pub low: u64,
    pub high: u64,
}

// How many keypoints a region has, and the source for all that is asked of it further.
#[derive(Clone, Copy)]
pub struct Found {
    pub many: usize,
    pub source: Source,
}

// A keypoint between the edges that is at least so strong.
fn is_strong(words: &[u32], e: Edges, t: u64, p: usize) -> bool
    requires { (p < points_in words.now) × (points_in words.now ≤ max_keypoints) }
    ensures { result ≡ (edged words.now e p && leb t (strength words.now p)) }
{
    thin_rule::in_region(words, e, p) && t <= thin_rule::strength_of(words, p)
}

// How many of the region's keypoints are at least so strong.
fn tally(words: &[u32], r: Region, t: u64, s: &[u32], c: Source) -> usize
    requires ordered { Ordered r × Sound words.now }
    requires stands { Stands (points_in words.now) s.now c }
    ensures { result ≡ found s.now c (strong words.now r t) }
{
    let e = thin_rule::edges_of(r);
    let (from, to) = c.places();
    let mut m = 0;
    for k in from..to {
        m += usize::from(is_strong(words, e, t, c.candidate(s, k)));
    }
    m
}

fn put_if(out: &mut [u32], at: usize, p: usize, yes: bool)
    requires { p < 2 ^ 32 }
    ensures { out.new ≡ cond (yes && ltb at (length out.old)) (set out.old at p) out.old }
{
    if yes && at < out.len() {
        out[at] = p as u32;
    }
}

// Writes those out from `at` on, as far as there is room, and answers where they end.
pub fn put(
    words: &[u32],
    r: Region,
    t: u64,
    s: &[u32],
    c: Source,
    out: &mut [u32],
    at: usize,
) -> usize
    requires ordered { Ordered r × Sound words.now }
    requires stands { Stands (points_in words.now) s.now c }
    requires t_bound { at + found s.now c (strong words.now r t) < 2 ^ 64 }
    ensures { Added (λ g. found s.now c (λ p. strong words.now r t p && g p)) out.old out.new at result }
{
    let e = thin_rule::edges_of(r);
    let (from, to) = c.places();
    let mut m = at;
    for k in from..to {
        let p = c.candidate(s, k);
        let yes = is_strong(words, e, t, p);
        put_if(out, m, p, yes);
        m += usize::from(yes);
    }
    m
}

// The larger of a strength so far and of a candidate's, if it is one of the region that is no stronger than u.
fn stronger(words: &[u32], e: Edges, u: u64, b: u64, p: usize) -> u64
    requires { (p < points_in words.now) × (points_in words.now ≤ max_keypoints) }
    ensures { result ≡ cond ((edged words.now e p && leb (strength words.now p) u) && ltb b (strength words.now p)) (strength words.now p) b }
{
    if thin_rule::in_region(words, e, p) {
        let t = thin_rule::strength_of(words, p);
        if (t <= u) & (b < t) { t } else { b }
    } else {
        b
    }
}

// The largest strength of the region's keypoints up to u, where there is one.
fn next(words: &[u32], r: Region, u: u64, s: &[u32], c: Source) -> u64
    requires ordered { Ordered r × Sound words.now }
    requires covers { Covers words.now r s.now c }
    requires u_bound { counted 0 (points_in words.now) (strong words.now r (u + 1)) < many words.now r }
    ensures { counted 0 (points_in words.now) (strong words.now r result) ≡ counted 0 (points_in words.now) (strong words.now r (u + 1)) + 1 }
{
    let e = thin_rule::edges_of(r);
    let (from, to) = c.places();
    let mut b = 0;
    for k in from..to {
        b = stronger(words, e, u, b, c.candidate(s, k));
    }
    b
}

// The strength from which on the region has exactly q keypoints: one after the other, from the strongest on.
fn top(words: &[u32], r: Region, q: usize, h: Reach, s: &[u32], c: Source) -> u64
    requires ordered { Ordered r × Sound words.now }
    requires covers { Covers words.now r s.now c × Reaches words.now h }
    requires le_q { (1 ≤ q) × (q < many words.now r) }
    ensures { counted 0 (points_in words.now) (strong words.now r result) ≡ q }
{
    let mut t = next(words, r, h.high, s, c);
    for found in 1..q {
        t = next(words, r, t - 1, s, c);
    }
    t
}

// The same, found by halving the reach.
fn halve(words: &[u32], r: Region, q: usize, h: Reach, s: &[u32], c: Source) -> u64
    requires ordered { Ordered r × Sound words.now }
    requires covers { Covers words.now r s.now c × Reaches words.now h }
    requires le_q { (1 ≤ q) × (q < many words.now r) }
    ensures { counted 0 (points_in words.now) (strong words.now r result) ≡ q }
{
    let mut lo = h.low;
    let mut hi = h.high;
    while lo < hi {
        let mid = lo + ((hi - lo - 1) / 2 + 1);
        let m = tally(words, r, mid, s, c);
        if m == q {
            return mid;
        }
        if m > q {
            lo = mid;
        } else {
            hi = mid - 1;
        }
    }
    lo
}

// The strength from which on the region has exactly q keypoints.
pub fn cut(words: &[u32], r: Region, q: usize, h: Reach, s: &[u32], c: Source) -> u64
    requires ordered { Ordered r × Sound words.now }
    requires covers { Covers words.now r s.now c × Reaches words.now h }
    requires le_q { (1 ≤ q) × (q < many words.now r) }
    ensures { counted 0 (points_in words.now) (strong words.now r result) ≡ q }
{
    if q < FEW {
        top(words, r, q, h, s, c)
    } else {
        halve(words, r, q, h, s, c)
    }
}

// Counts the region's keypoints. Of all positions it puts them into the lent list, which is their source from then on if it took them all.
pub fn hold(words: &[u32], r: Region, s: &mut [u32], c: Source) -> Found
    requires ordered { Ordered r × Sound words.now }
    requires covers { Covers words.now r s.old c }
    ensures many_value { (result.many ≡ many words.now r) × Covers words.now r s.new result.source }
    ensures source_value { is_all c ≡ false → (result.source ≡ c) × (s.new ≡ s.old) }
{
    match c {
        Source::All(_, _) => {
            let many = put(words, r, 0, &[], c, s, 0);
            if many <= s.len() {
                Found {
                    many,
                    source: Source::Held(0, many),
                }
            } else {
                Found { many, source: c }
            }
        }
        Source::Held(_, _) => Found {
            many: tally(words, r, 0, s, c),
            source: c,
        },
    }
}

// Parts a run in four, for the region's quarters: where each part begins, and where the last ends.
pub fn split(words: &[u32], r: Region, s: &mut [u32], c: Source) -> [usize; 5]
    requires ordered { Ordered r × Sound words.now }
    requires covers { Covers words.now r s.old c }
    ensures { Split words.now r s.old s.new c result }
{
    match c {
        Source::All(from, _) => [from; 5],
        Source::Held(from, to) => {
            let x = thin_rule::edge_at(r.left + (r.right - r.left) / 2);
            let y = thin_rule::edge_at(r.top + (r.bottom - r.top) / 2);
            let third = thin_part::part(words, Cut::Row(y), s, from, to);
            let second = thin_part::part(words, Cut::Column(x), s, from, third);
            let fourth = thin_part::part(words, Cut::Column(x), s, third, to);
            [from, second, third, fourth, to]
        }
    }
}

// The source of the quarter k.
#[tactic(auto, unfolding(crate::specs::Sources::source_of))]
pub fn source_of(c: Source, b: [usize; 5], k: usize) -> Source
    requires { k < 4 }
    ensures { result ≡ source_of c b k }
{
    match c {
        Source::All(_, _) => c,
        Source::Held(_, _) => Source::Held(b[k], b[k + 1]),
    }
}

// The reach of a list, in one run over it.
pub fn reach_of(words: &[u32]) -> Reach
    requires { points_in words.now ≤ max_keypoints }
    ensures { Reaches words.now result }
{
    let mut low = u64::MAX;
    let mut high = 0;
    for i in 0..words.len() / KEYPOINT_WORDS {
        let t = thin_rule::strength_of(words, i);
        low = low.min(t);
        high = high.max(t);
    }
    Reach { low, high }
}
