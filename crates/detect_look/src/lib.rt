// The first look at the cells of a row, which every candidate passes, so that only the cells that it leaves are searched among their neighbours.
#![tactic(auto)]

ghost use Rattle.std.specs.Prelude.{◌≡◌, ℕ, Bool, Float, false, ◌+◌, ◌<◌, ◌≤◌, length, replicate};
ghost use Rattle.std.proofs.lemmas.List.Edits.{sets};
ghost use Rattle.detect_fit.specs.Place.{Around};
ghost use Rattle.detect_refine.specs.Place.{Searched};
ghost use Rattle.detect_look.specs.Hints.{Picks, of_six, hint_at, beyond, some_cell, Tells, any_loud, any_hint, looks, hinted};
ghost use Rattle.detect_look.specs.Place.{group, Along};

use detect_fit::Near;
use detect_keypoint::Search;
use picture::Shape;

// So many cells of a row are asked at once whether one of them is loud. Where none is, which is the rule in a calm frame, nothing but the cells themselves is read:
// no neighbour, and no other plane. Any number above 0 would do.
pub const BLOCK: usize = 64;

// So many cells are then asked at once whether one of them has a hint. In nearly all of these groups none has, and no mark is made. Any number above 0 would do.
pub const GROUP: usize = 16;

// Cells of one row, from column lo to below hi.
#[derive(Clone, Copy)]
pub struct Run {
    pub row: usize,
    pub lo: usize,
    pub hi: usize,
}

// What a selection leaves of a cell's six nearest neighbours.
#[tactic(auto, unfolding(crate::specs::Hints::of_six))]
fn of_six<F: Fn(f32, f32) -> f32>(pick: F, n: Near, before: f32, after: f32) -> f32
    requires { F.IsAlwaysCallable pick }
    ensures { (choose : Float → Float → Float) → Picks (F.post pick) choose → result ≡ of_six choose n before after }
{
    pick(pick(n.l, n.r), pick(pick(n.u, n.d), pick(before, after)))
}

// A first look: whether the cell (p, r, c) is above the threshold and not beaten by the greatest of its six nearest neighbours, or below its negative and not beaten
// by the least. Every candidate passes.
fn may_be(dog: &[f32], t: Shape, threshold: f32, p: usize, r: usize, c: usize) -> bool
    requires { Around (length dog.now) t p r c }
    ensures { result ≡ hint_at threshold dog.now t p r c }
{
    let near = detect_fit::near_at(dog, t, p, r, c);
    let before = picture::at(dog, t, p - 1, r, c);
    let after = picture::at(dog, t, p + 1, r, c);
    let v = near.m;
    let hi = of_six(bounds::greater, near, before, after);
    let lo = of_six(bounds::lesser, near, before, after);
    ((v > threshold) & (v >= hi)) | ((v < -threshold) & (v <= lo))
}

// Whether a sample is above the threshold, or below its negative: two comparisons, and no magnitude.
fn is_beyond(threshold: f32, v: f32) -> bool
    ensures { result ≡ beyond threshold v }
{
    (v > threshold) | (v < -threshold)
}

// Whether one of a run's cells passes a test. No branch depends on a sample, so that the machine looks at several at once; so in `mark` and `hint_count`.
#[tactic(auto, using(crate::proofs::Looks::some_none, crate::proofs::Looks::some_more))]
fn some_cell<F: Fn(usize) -> bool>(u: Run, test: F) -> bool
    requires order { u.lo ≤ u.hi }
    requires callable { (c : ℕ) → u.lo ≤ c → c < u.hi → F.pre test c }
    ensures { (p : ℕ → Bool) → Tells (F.post test) u.lo u.hi p → result ≡ some_cell u.lo u.hi p }
{
    let mut any = false;
    for c in u.lo..u.hi {
        any |= test(c);
    }
    any
}

// Whether one of a run's cells is loud.
#[tactic(auto, unfolding(crate::specs::Hints::any_loud))]
pub fn any_loud(dog: &[f32], t: Shape, s: Search, u: Run) -> bool
    requires searched { Searched (length dog.now) t s }
    requires along { Along t u }
    ensures { result ≡ any_loud dog.now t s u.row u.lo u.hi }
{
    some_cell(
        u,
        |c| is_beyond(s.threshold, picture::at(dog, t, s.layer, u.row, c)),
    )
}

// Whether one of a run's cells has a hint.
#[tactic(auto, unfolding(crate::specs::Hints::any_hint))]
pub fn any_hint(dog: &[f32], t: Shape, s: Search, u: Run) -> bool
    requires searched { Searched (length dog.now) t s }
    requires along { Along t u }
    ensures { result ≡ any_hint dog.now t s u.row u.lo u.hi }
{
    some_cell(u, |c| may_be(dog, t, s.threshold, s.layer, u.row, c))
}

// How many of a run's cells have a hint. They give no more keypoints than that.
#[tactic(auto, using(crate::proofs::Counted::hinted_none, crate::proofs::Counted::hinted_more, crate::proofs::Counted::hinted_bound, crate::proofs::Counted::one_few))]
pub fn hint_count(dog: &[f32], t: Shape, s: Search, u: Run) -> usize
    requires searched { Searched (length dog.now) t s }
    requires along { Along t u }
    ensures { result ≡ length (hinted dog.now t s u.row u.lo u.hi) }
{
    let mut n: usize = 0;
    for c in u.lo..u.hi {
        n += usize::from(may_be(dog, t, s.threshold, s.layer, u.row, c));
    }
    n
}

// Takes the first look at a group of cells. The marks past its end are false.
#[tactic(auto, using(crate::proofs::Looks::marks_none))]
pub fn mark(dog: &[f32], t: Shape, s: Search, u: Run) -> [bool; GROUP]
    requires searched { Searched (length dog.now) t s }
    requires along { Along t u }
    requires hi_bound { u.hi ≤ u.lo + group }
    ensures { result ≡ sets (replicate group false) 0 (looks dog.now t s u.row u.lo u.hi) }
{
    let mut marks = [false; GROUP];
    for c in u.lo..u.hi {
        marks[c - u.lo] = may_be(dog, t, s.threshold, s.layer, u.row, c);
    }
    marks
}
