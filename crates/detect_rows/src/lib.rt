// What a row of cells gives, as words, written as far as there is room.
#![tactic(auto)]

ghost use Rattle.std.specs.Prelude.{◌≡◌, ◌+◌, ◌-◌, ◌*◌, ◌^◌, ◌<◌, ◌≤◌, min, length};
ghost use Rattle.std.proofs.lemmas.List.Edits.{sets};
ghost use Rattle.params.specs.Limits.{border, max_side};
ghost use Rattle.detect_samples.specs.Rows.{span_good};
ghost use Rattle.detect_refine.specs.Place.{Searched, Placed};
ghost use Rattle.detect_look.specs.Place.{group, Along};
ghost use Rattle.detect_words.specs.Leaves.{cell_at};
ghost use Rattle.detect_rows.specs.Forms.{run_leaves, row_leaves, again, all_again, Cells};

use detect_keypoint::{Cell, Search};
use detect_look::Run;
use detect_refine::BORDER;
use detect_words::{Form, Place};
use params::MAX_SIDE;
use picture::Shape;

// What the search of a row gives: how many words, and whether the samples of the row below are good in every plane.
#[derive(Clone, Copy)]
pub struct Row {
    pub words: usize,
    pub good: bool,
}

// Finds the keypoints of a group of cells, writes what is left of them, as far as there is room, and counts its words: a first look at all cells, then a search of those
// that it leaves. The bounds on places, here and below, only keep a sum of places from wrapping.
fn marked_words(dog: &[f32], t: Shape, s: Search, u: Run, p: Place, out: &mut [u32]) -> usize
    requires searched { Searched (length dog.now) t s }
    requires along { Along t u }
    requires hi_bound { u.hi ≤ u.lo + group }
    requires from_bound { p.from < 2 ^ 39 + 2 ^ 21 }
    ensures value { result ≡ length (run_leaves p.form dog.now t s u.row u.lo u.hi) }
    ensures out_after { out.new ≡ sets out.old p.from (run_leaves p.form dog.now t s u.row u.lo u.hi) }
{
    let marks = detect_look::mark(dog, t, s, u);
    let mut n: usize = 0;
    for c in u.lo..u.hi {
        let x = detect_cell::seen(marks[c - u.lo], dog, t, s, u.row, c);
        n += detect_words::leave(
            x,
            u.row,
            c,
            Place {
                from: p.from + n,
                ..p
            },
            out,
        );
    }
    n
}

// The same, and no mark is made where no cell of the group has a hint.
fn group_words(dog: &[f32], t: Shape, s: Search, u: Run, p: Place, out: &mut [u32]) -> usize
    requires searched { Searched (length dog.now) t s }
    requires along { Along t u }
    requires hi_bound { u.hi ≤ u.lo + group }
    requires from_bound { p.from < 2 ^ 39 + 2 ^ 21 }
    ensures value { result ≡ length (run_leaves p.form dog.now t s u.row u.lo u.hi) }
    ensures out_after { out.new ≡ sets out.old p.from (run_leaves p.form dog.now t s u.row u.lo u.hi) }
{
    if !detect_look::any_hint(dog, t, s, u) {
        return 0;
    }
    marked_words(dog, t, s, u, p, out)
}

// Where the run that starts at column c ends: so many cells on, or at the end of all.
pub fn run_end(c: usize, end: usize, most: usize) -> usize
    requires { (c < end) × (0 < most) }
    ensures { (result ≡ min (c + most) end) × (c < result) × (result ≤ end) × (result ≤ c + most) }
{
    c + most.min(end - c)
}

// Finds the keypoints of a block of cells, group by group, and none where no cell of it is loud.
pub fn block_words(dog: &[f32], t: Shape, s: Search, u: Run, p: Place, out: &mut [u32]) -> usize
    requires searched { Searched (length dog.now) t s }
    requires along { Along t u }
    requires from_bound { p.from < 2 ^ 39 + 2 ^ 20 }
    ensures value { result ≡ length (run_leaves p.form dog.now t s u.row u.lo u.hi) }
    ensures out_after { out.new ≡ sets out.old p.from (run_leaves p.form dog.now t s u.row u.lo u.hi) }
{
    if !detect_look::any_loud(dog, t, s, u) {
        return 0;
    }
    let mut n: usize = 0;
    for lo in (u.lo..u.hi).step_by(detect_look::GROUP) {
        let hi = run_end(lo, u.hi, detect_look::GROUP);
        n += group_words(
            dog,
            t,
            s,
            Run { row: u.row, lo, hi },
            Place {
                from: p.from + n,
                ..p
            },
            out,
        );
    }
    n
}

// Finds a row's keypoints, writes what is left of them, as far as there is room, and counts its words. On the way it tests the samples of the row below in every plane, those
// below a block just before the block is searched: the memory that the test waits for is read while cells are searched, and is at hand when the next row is. The search is
// right for any samples, so that what it gives does not hang on the test.
pub fn row_words(dog: &[f32], t: Shape, s: Search, r: usize, p: Place, out: &mut [u32]) -> Row
    requires searched { Searched (length dog.now) t s }
    requires border_bound { (2 * border < t.width) × (border ≤ r) × (r < t.height - border) }
    requires from_bound { p.from < 2 ^ 39 }
    ensures words_value { result.words ≡ length (row_leaves p.form dog.now t s r) }
    ensures good_value { result.good ≡ span_good t (r + 1) 0 t.width dog.now }
    ensures out_after { out.new ≡ sets out.old p.from (row_leaves p.form dog.now t s r) }
{
    let below = r + 1;
    let end = t.width - BORDER;
    let mut n: usize = 0;
    let mut ok = detect_samples::span_good(dog, t, below, 0, BORDER);
    for lo in (BORDER..end).step_by(detect_look::BLOCK) {
        let hi = run_end(lo, end, detect_look::BLOCK);
        ok &= detect_samples::span_good(dog, t, below, lo, hi);
        n += block_words(
            dog,
            t,
            s,
            Run { row: r, lo, hi },
            Place {
                from: p.from + n,
                ..p
            },
            out,
        );
    }
    ok &= detect_samples::span_good(dog, t, below, end, t.width);
    Row { words: n, good: ok }
}

// Refines the cell of a word again, and writes the words that it gives from a place on, as far as there is room.
fn refined(dog: &[f32], t: Shape, s: Search, w: u32, from: usize, out: &mut [u32]) -> usize
    requires searched { Searched (length dog.now) t s }
    requires placed { Placed t s.settings.layers (cell_at s w) }
    requires from_bound { from < 2 ^ 40 }
    ensures value { result ≡ length (again dog.now t s w) }
    ensures out_after { out.new ≡ sets out.old from (again dog.now t s w) }
{
    let r = w as usize / MAX_SIDE;
    let c = w as usize % MAX_SIDE;
    let x = detect_refine::refine(dog, t, s, Cell { p: s.layer, r, c });
    detect_words::leave(
        x,
        r,
        c,
        Place {
            from,
            form: Form::KeypointWords,
        },
        out,
    )
}

// Refines the cells of the words of `hold` again, and writes the words that they give, as far as there is room.
pub fn refined_words(dog: &[f32], t: Shape, s: Search, hold: &[u32], out: &mut [u32])
    requires searched { Searched (length dog.now) t s }
    requires few { length hold.now ≤ max_side * max_side }
    requires cells { Cells t s hold.now }
    ensures { out.new ≡ sets out.old 0 (all_again dog.now t s hold.now) }
{
    let mut n: usize = 0;
    for word in hold {
        n += refined(dog, t, s, *word, n, out);
    }
}
