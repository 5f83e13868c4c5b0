// Whether samples are in range: one, the four neighbours of a cell, a run, an area of a picture, all.
#![tactic(auto)]

ghost use Rattle.std.specs.Prelude.{◌≡◌, ◌≤◌, length};
ghost use Rattle.params.specs.Table.{good_sample, all_good};
ghost use Rattle.picture.specs.Picture.{four_at};
ghost use Rattle.picture.specs.Place.{Around};
ghost use Rattle.samples.specs.Samples.{good_from};
ghost use Rattle.samples.specs.Area.{Inset, area_good};

use picture::Size;

// The largest magnitude of a sample, 2^20.
const LIMIT: f32 = 1048576.0;

// So many samples are tested between two looks at what came out: enough that the look costs nothing beside them, and few enough that a stack that is bad early is left early.
// Any number above 0 would do.
const BLOCK: usize = 1024;

// The cells from row `top` to before row `bottom` and from column `left` to before column `right`.
#[derive(Clone, Copy)]
pub struct Area {
    pub top: usize,
    pub bottom: usize,
    pub left: usize,
    pub right: usize,
}

// Whether a sample is a number, and at most the limit in magnitude.
pub fn good_sample(x: f32) -> bool
    ensures { result ≡ good_sample x }
{
    (-LIMIT <= x) & (x <= LIMIT)
}

// Whether the four neighbours of the cell (r, c) are good samples.
pub fn four_good(img: &[f32], s: Size, r: usize, c: usize) -> bool
    requires { Around (length img.now) s r c }
    ensures { result ≡ all_good (four_at img.now s.width r c) }
{
    let right = good_sample(picture::pixel_at(img, s, r, c + 1));
    let left = good_sample(picture::pixel_at(img, s, r, c - 1));
    let up = good_sample(picture::pixel_at(img, s, r - 1, c));
    let down = good_sample(picture::pixel_at(img, s, r + 1, c));
    right & (left & (up & down))
}

// Whether the samples from `from` to below `to` are good. No branch depends on a sample, so that the machine tests several at once.
pub fn block_good(d: &[f32], from: usize, to: usize) -> bool
    requires { (from ≤ to) × (to ≤ length d.now) }
    ensures { result ≡ good_from from to d.now }
{
    let mut ok = true;
    for x in &d[from..to] {
        ok &= good_sample(*x);
    }
    ok
}

// Whether the samples of an area and of the cells round it are good: more than the four neighbours of its cells, so that a yes is enough, and whole runs of samples,
// which the machine tests quickly.
pub fn area_good(img: &[f32], s: Size, a: Area) -> bool
    requires { Inset (length img.now) s a }
    ensures { result ≡ area_good img.now s.width a }
{
    let left = a.left - 1;
    let right = a.right + 1;
    let mut ok = true;
    for r in a.top - 1..a.bottom + 1 {
        let from = r * s.width;
        ok &= block_good(img, from + left, from + right);
    }
    ok
}

// Whether all samples are good: block by block, and no further than the first that has a bad one.
pub fn all_good(d: &[f32]) -> bool
    ensures { result ≡ all_good d.now }
{
    for from in (0..d.len()).step_by(BLOCK) {
        if !block_good(d, from, (from + BLOCK).min(d.len())) {
            return false;
        }
    }
    true
}
