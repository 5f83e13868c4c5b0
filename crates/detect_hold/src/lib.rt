// What is held of a layer's keypoints until it is known that all fit, and what is written from it.
#![tactic(auto)]

ghost use Rattle.std.specs.Prelude.{◌≡◌, true, false, ◌+◌, ◌-◌, ◌*◌, ◌^◌, ◌<◌, ◌≤◌, length, OnOk, OnErr, IfOk, IfErr};
ghost use Rattle.std.proofs.lemmas.List.Edits.{sets};
ghost use Rattle.params.specs.Limits.{border};
ghost use Rattle.params.specs.Table.{all_good};
ghost use Rattle.detect_samples.specs.Rows.{rows_good};
ghost use Rattle.detect_refine.specs.Place.{Searched};
ghost use Rattle.detect_extrema.specs.Neighbours.{tied};
ghost use Rattle.detect_extrema.specs.Scan.{keypoints, words};
ghost use Rattle.detect_rows.specs.Forms.{rows_leave};
ghost use Rattle.detect_hold.specs.Front.{Holds, rows_hinted};

use detect_keypoint::Search;
use detect_look::Run;
use detect_refine::BORDER;
use detect_words::{Form, Place};
use params::KEYPOINT_WORDS;
use picture::Shape;

// What the rows above `row` gave, as far as the cells of their keypoints could be held: so many.
#[derive(Clone, Copy)]
pub struct Front {
    pub row: usize,
    pub count: usize,
}

// Finds the keypoints of the rows from `from` on, writes the words of their cells, or else their words, as far as there is room, and counts what it writes.
pub fn rest_words(dog: &[f32], t: Shape, s: Search, from: usize, p: Place, out: &mut [u32]) -> usize
    requires searched { Searched (length dog.now) t s }
    requires border_bound { (2 * border < t.width) × (border ≤ from) × (from ≤ t.height - border) }
    requires from_bound { p.from < 2 ^ 38 }
    ensures value { result ≡ length (rows_leave p.form dog.now t s from (t.height - border)) }
    ensures out_after { out.new ≡ sets out.old p.from (rows_leave p.form dog.now t s from (t.height - border)) }
{
    let mut n: usize = 0;
    for r in from..t.height - BORDER {
        n += detect_rows::row_words(
            dog,
            t,
            s,
            r,
            Place {
                from: p.from + n,
                ..p
            },
            out,
        )
        .words;
    }
    n
}

// How many cells of the rows from `from` on have a hint: a first look at them, and no search.
pub fn rest_hints(dog: &[f32], t: Shape, s: Search, from: usize) -> usize
    requires searched { Searched (length dog.now) t s }
    requires border_bound { (2 * border < t.width) × (border ≤ from) × (from ≤ t.height - border) }
    ensures { result ≡ length (rows_hinted dog.now t s from (t.height - border)) }
{
    let mut n: usize = 0;
    for r in from..t.height - BORDER {
        n += detect_look::hint_count(
            dog,
            t,
            s,
            Run {
                row: r,
                lo: BORDER,
                hi: t.width - BORDER,
            },
        );
    }
    n
}

// Searches rows, tests the samples of the row below each, and holds the cells of the keypoints, until all rows are searched, those of a row can't all be held, or, as an error, a sample is bad.
// Which row that is stays open: all that is asked of it is what is held, and which samples are known to be good.
fn held_rows(dog: &[f32], t: Shape, s: Search, hold: &mut [u32]) -> Result<Front, Front>
    requires searched { Searched (length dog.now) t s }
    requires border_bound { (2 * border < t.width) × (2 * border < t.height) }
    requires hold_len_bound { length hold.old < 2 ^ 38 }
    ensures holds { IfOk result (λ f. Holds dog.now t s f.row f.count hold.new) }
    ensures tested { IfOk result (λ f. rows_good t (border + 1) (f.row + 1) dog.now ≡ true) }
    ensures holds_until_bad { IfErr result (λ f. Holds dog.now t s f.row f.count hold.new) }
    ensures bad { OnErr result (all_good dog.now ≡ false) }
{
    let mut n: usize = 0;
    for r in BORDER..t.height - BORDER {
        let w = detect_rows::row_words(
            dog,
            t,
            s,
            r,
            Place {
                from: n,
                form: Form::CellWord,
            },
            hold,
        );
        if !w.good {
            return Err(Front { row: r, count: n });
        }
        if w.words > hold.len() - n {
            return Ok(Front { row: r, count: n });
        }
        n += w.words;
    }
    Ok(Front {
        row: t.height - BORDER,
        count: n,
    })
}

// The rows that are held, as an error where a sample is bad: below each row that is searched they are tested as it is searched, and the rest before and after.
pub fn front_of(dog: &[f32], t: Shape, s: Search, hold: &mut [u32]) -> Result<Front, Front>
    requires searched { Searched (length dog.now) t s }
    requires border_bound { (2 * border < t.width) × (2 * border < t.height) }
    requires hold_len_bound { length hold.old < 2 ^ 38 }
    ensures holds { IfOk result (λ f. Holds dog.now t s f.row f.count hold.new) }
    ensures good { OnOk result (all_good dog.now ≡ true) }
    ensures holds_until_bad { IfErr result (λ f. Holds dog.now t s f.row f.count hold.new) }
    ensures bad { OnErr result (all_good dog.now ≡ false) }
{
    if !detect_samples::rows_good(dog, t, 0, BORDER + 1) {
        return Err(Front {
            row: BORDER,
            count: 0,
        });
    }
    let f = held_rows(dog, t, s, hold)?;
    if !detect_samples::rows_good(dog, t, f.row + 1, t.height) {
        return Err(f);
    }
    Ok(f)
}

// Writes the words of all keypoints: each cell that is held is refined again, and the rows behind them are searched. Counts the keypoints.
pub fn write(dog: &[f32], t: Shape, s: Search, f: Front, hold: &[u32], out: &mut [u32]) -> usize
    requires searched { Searched (length dog.now) t s }
    requires border_bound { 2 * border < t.width }
    requires holds { Holds dog.now t s f.row f.count hold.now }
    ensures value { result ≡ length (keypoints tied dog.now t s) }
    ensures out_after { out.new ≡ sets out.old 0 (words (keypoints tied dog.now t s)) }
{
    detect_rows::refined_words(dog, t, s, &hold[..f.count], out);
    let p = Place {
        from: KEYPOINT_WORDS * f.count,
        form: Form::KeypointWords,
    };
    f.count + rest_words(dog, t, s, f.row, p, out) / KEYPOINT_WORDS
}
