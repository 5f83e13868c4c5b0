// The keypoints of an octave as they are found, and the records of each compared with a sheet's: the keypoints of 64 cells are held at a time.
#![tactic(auto)]

ghost use Rattle.std.specs.Prelude.{◌≡◌, ◌-◌, ◌*◌, ◌<◌, ◌≤◌, length};
ghost use mathlib.Core.List.{foldl};
ghost use Rattle.params.specs.Limits.{border, keypoint_words};
ghost use Rattle.sheet.specs.Sheet.{parts};
ghost use Rattle.detect_refine.specs.Place.{Searched};
ghost use Rattle.detect_extrema.specs.Neighbours.{tied};
ghost use Rattle.detect_extrema.specs.Scan.{row_of, keypoints};
ghost use Rattle.audit_compare.specs.Standing.{start, standing_of, standing_in, standing_told};
ghost use Rattle.audit_keypoint.specs.Steps.{given_of, keypoint_step};
ghost use Rattle.audit_keypoint.specs.Ready.{Stated, Pictured};
ghost use Rattle.audit_walk.specs.Walk.{passed, octave_found, Searchable};

use audit_compare::{Agreement, Stopped};
use audit_keypoint::Task;
use detect_keypoint::Search;
use detect_look::Run;
use detect_refine::BORDER;
use detect_words::{Form, Place};
use params::{KEYPOINT_WORDS, Settings};

// After the first n keypoints of words, ten each.
fn add_found(
    gauss: &[f32],
    body: &[u8],
    k: Task,
    found: &[u32],
    n: usize,
    a: Agreement,
) -> Result<Agreement, Stopped>
    requires stated { Stated (length body.now) k }
    requires pictured { Pictured (length gauss.now) k }
    requires n_in_bounds { keypoint_words * n ≤ length found.now }
    ensures { standing_in result ≡ foldl (keypoint_step gauss.now (given_of body.now k)) (standing_of a) (parts keypoint_words n found.now) }
{
    let mut now = a;
    // A plain index: the contract counts `parts` of the words, of which i is the next, and says nothing of those behind the n.
    for i in 0..n {
        let from = KEYPOINT_WORDS * i;
        let to = from + KEYPOINT_WORDS;
        now = audit_keypoint::add_keypoint(gauss, body, k, &found[from..to], Ok(now))?;
    }
    Ok(now)
}

// After those of a row, block by block. No cell gives more than one keypoint, so that the words of a block's fit.
fn add_row(
    dog: &[f32],
    gauss: &[f32],
    body: &[u8],
    k: Task,
    s: Search,
    r: usize,
    a: Agreement,
) -> Result<Agreement, Stopped>
    requires searched { Searched (length dog.now) k.shape s }
    requires border_bound { (2 * border < k.shape.width) × (border ≤ r) × (r < k.shape.height - border) }
    requires stated { Stated (length body.now) k }
    requires pictured { Pictured (length gauss.now) k }
    ensures { standing_in result ≡ passed gauss.now (given_of body.now k) (standing_of a) (row_of tied dog.now k.shape s r) }
{
    let t = k.shape;
    let end = t.width - BORDER;
    let mut found = [0u32; 640];
    let mut now = a;
    for lo in (BORDER..end).step_by(detect_look::BLOCK) {
        let hi = detect_rows::run_end(lo, end, detect_look::BLOCK);
        let n = detect_rows::block_words(
            dog,
            t,
            s,
            Run { row: r, lo, hi },
            Place {
                from: 0,
                form: Form::KeypointWords,
            },
            &mut found,
        );
        now = add_found(gauss, body, k, &found, n / KEYPOINT_WORDS, now)?;
    }
    Ok(now)
}

// After those of a layer, row by row; a picture with a side no longer than its two borders has no cell to search.
fn add_layer(
    dog: &[f32],
    gauss: &[f32],
    body: &[u8],
    k: Task,
    s: Search,
    a: Agreement,
) -> Result<Agreement, Stopped>
    requires searched { Searched (length dog.now) k.shape s }
    requires stated { Stated (length body.now) k }
    requires pictured { Pictured (length gauss.now) k }
    ensures { standing_in result ≡ passed gauss.now (given_of body.now k) (standing_of a) (keypoints tied dog.now k.shape s) }
{
    let t = k.shape;
    if (t.width <= 2 * BORDER) | (t.height <= 2 * BORDER) {
        return Ok(a);
    }
    let mut now = a;
    for r in BORDER..t.height - BORDER {
        now = add_row(dog, gauss, body, k, s, r, now)?;
    }
    Ok(now)
}

// Before any record is made.
fn none_made() -> Agreement
    ensures { standing_of result ≡ start }
{
    Agreement {
        place: 0,
        difference: None,
    }
}

// After all keypoints of an octave, by the layer searched.
pub fn walk(
    dog: &[f32],
    gauss: &[f32],
    body: &[u8],
    k: Task,
    s: Settings,
) -> Result<Agreement, Stopped>
    requires searchable { Searchable (length dog.now) k.shape k.octave s }
    requires stated { Stated (length body.now) k }
    requires pictured { Pictured (length gauss.now) k }
    ensures value { standing_in result ≡ passed gauss.now (given_of body.now k) start (octave_found dog.now k.shape k.octave s) }
    ensures told { standing_told result ≡ passed gauss.now (given_of body.now k) start (octave_found dog.now k.shape k.octave s) }
{
    let mut now = none_made();
    for layer in 1..s.layers + 1 {
        let search = detect::search_of(layer, k.octave, s);
        now = add_layer(dog, gauss, body, k, search, now)?;
    }
    Ok(now)
}

#[cfg(test)]
mod tests {
    use super::*;
    use picture::Shape;
    use std::test::Fail;

    // Three difference planes of 11 rows of 11 samples, of which one cell is searched, and a sheet of no records.
    const SIDE: usize = 11;

    const PLANE: usize = SIDE * SIDE;

    const SETTINGS: Settings = Settings {
        contrast: 0.04,
        edge: 10.0,
        sigma: 1.6,
        layers: 1,
    };

    fn small() -> Task
        ensures searchable { Searchable 363 result.shape result.octave SETTINGS }
        ensures stated { Stated 0 result }
        ensures pictured { Pictured 484 result }
    {
        Task {
            shape: Shape {
                width: SIDE,
                height: SIDE,
                planes: 3,
            },
            octave: 0,
            edition: sheet_edition::edition_of(1),
            count: 0,
        }
    }

    #[test]
    fn level_stack_has_no_record(rt: HostRuntime) -> Result<(), Fail> {
        let dog = [0.0; 3 * PLANE];
        let gauss = [f32::NAN; 4 * PLANE];
        let after = walk(&dog, &gauss, &[], small(), SETTINGS);
        assert_eq!(rt; after, Ok(none_made()));
        Ok(())
    }

    // The one cell is an extremum, and its picture has no good sample.
    #[test]
    fn refused_keypoint_ends_the_walk(rt: HostRuntime) -> Result<(), Fail> {
        let mut dog = [0.0; 3 * PLANE];
        dog[PLANE + PLANE / 2] = 100.0;
        let gauss = [f32::NAN; 4 * PLANE];
        let after = walk(&dog, &gauss, &[], small(), SETTINGS);
        assert_eq!(rt; after, Err(audit_compare::stopped()));
        Ok(())
    }
}
