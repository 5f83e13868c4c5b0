// What a region keeps: all of it, the best of it, or what its four quarters keep, for which thinning calls itself.
#![tactic(auto)]

ghost use Rattle.std.specs.Prelude.{◌≡◌, false, ◌&&◌, ◌+◌, ◌^◌, ◌≤◌, ◌<◌, length};
ghost use Rattle.counts.specs.Counts.{counted};
ghost use Rattle.thin_rule.specs.Rule.{points_in, keeps, kept};
ghost use Rattle.thin_rule.specs.Strength.{Ordered, Sound};
ghost use Rattle.thin_part.specs.Runs.{Beside};
ghost use Rattle.thin_source.specs.Sources.{is_all, from_of, to_of, Covers, Reaches};
ghost use Rattle.thin_source.specs.Adds.{Added};

use params::KEYPOINT_WORDS;
use thin_rule::Region;
use thin_source::{Reach, Source};

// So many positions of a region are held at once: 26 of the 32 KB of stack that thinning takes at the most.
const HELD: usize = 6496;

// Writes what a region keeps from `at` on, as far as there is room, and answers where it ends.
// Plain parameters: the list is asked of with and without its reach, the lent list with and without a source in it.
fn thin(
    words: &[u32],
    r: Region,
    q: usize,
    depth: u32,
    h: Reach,
    s: &mut [u32],
    c: Source,
    out: &mut [u32],
    at: usize,
) -> usize
    requires ordered { Ordered r × Sound words.now }
    requires covers { Covers words.now r s.old c × Reaches words.now h }
    requires le_q { (1 ≤ q) × (at + q < 2 ^ 64) }
    ensures added { Added (λ g. counted 0 (points_in words.now) (λ i. keeps words.now depth r q i && g i)) out.old out.new at result }
    ensures beside { is_all c ≡ false → Beside s.old s.new (from_of c) (to_of c) }
{
    let f = thin_source::hold(words, r, s, c);
    let near = f.source;
    if f.many <= q {
        return thin_source::put(words, r, 0, s, near, out, at);
    }
    if (q < 4) | (depth == 0) {
        let t = thin_source::cut(words, r, q, h, s, near);
        return thin_source::put(words, r, t, s, near, out, at);
    }
    let b = thin_source::split(words, r, s, near);
    let mut end = at;
    for k in 0..4 {
        end = thin(
            words,
            thin_rule::quarter_of(r, k),
            thin_rule::share_of(q, k),
            depth - 1,
            h,
            s,
            thin_source::source_of(near, b, k),
            out,
            end,
        );
    }
    end
}

// The same, from the front of `out` on, with room of its own to hold positions.
pub fn thin_all(words: &[u32], r: Region, q: usize, depth: u32, out: &mut [u32]) -> usize
    requires ordered { Ordered r × Sound words.now }
    requires le_q { 1 ≤ q }
    ensures { Added (λ g. counted 0 (points_in words.now) (λ i. keeps words.now depth r q i && g i)) out.old out.new 0 result }
{
    let mut s = [0u32; HELD];
    thin(
        words,
        r,
        q,
        depth,
        thin_source::reach_of(words),
        &mut s,
        Source::All(0, words.len() / KEYPOINT_WORDS),
        out,
        0,
    )
}

// How many a region keeps: the same with no room to write.
pub fn count(words: &[u32], r: Region, q: usize, depth: u32) -> usize
    requires ordered { Ordered r × Sound words.now }
    requires le_q { 1 ≤ q }
    ensures { result ≡ length (kept words.now depth r q) }
{
    thin_all(words, r, q, depth, &mut [])
}
