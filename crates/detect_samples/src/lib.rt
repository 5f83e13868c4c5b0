// Whether the samples of a stack's rows are in range in every plane: a column of cells, a span of a row, whole rows.
#![tactic(auto)]

ghost use Rattle.std.specs.Prelude.{◌≡◌, ◌+◌, ◌*◌, ◌<◌, ◌≤◌, length};
ghost use Rattle.detect_samples.specs.Rows.{usual, span_good, rows_good};

use picture::Shape;

// The planes of three layers, which most stacks have: their cells are tested a column of cells at a time, in one run through the row. Any number would do.
const USUAL: usize = 5;

// Whether the cell (r, c) is good in each of the usual planes.
fn column_good(d: &[f32], t: Shape, r: usize, c: usize) -> bool
    requires { (length d.now ≡ t.planes * t.height * t.width) × ((t.planes ≡ usual) × ((r < t.height) × (c < t.width))) }
    ensures { result ≡ span_good t r c (c + 1) d.now }
{
    let mut ok = true;
    for p in 0..USUAL {
        ok &= samples::good_sample(d[p * (t.height * t.width) + r * t.width + c]);
    }
    ok
}

// Whether the cells of row r from column lo to below hi are: one run through the row, which the machine makes several columns at a time.
fn columns_good(d: &[f32], t: Shape, r: usize, lo: usize, hi: usize) -> bool
    requires { (length d.now ≡ t.planes * t.height * t.width) × ((t.planes ≡ usual) × ((r < t.height) × ((lo ≤ hi) × (hi ≤ t.width)))) }
    ensures { result ≡ span_good t r lo hi d.now }
{
    let mut ok = true;
    for c in lo..hi {
        ok &= column_good(d, t, r, c);
    }
    ok
}

// Whether the cells of row r from column lo to below hi are good in every plane. The place is worked out from products that are no longer than the list, whatever the shape.
pub fn span_good(d: &[f32], t: Shape, r: usize, lo: usize, hi: usize) -> bool
    requires { (length d.now ≡ t.planes * t.height * t.width) × ((r < t.height) × ((lo ≤ hi) × (hi ≤ t.width))) }
    ensures { result ≡ span_good t r lo hi d.now }
{
    if t.planes == USUAL {
        return columns_good(d, t, r, lo, hi);
    }
    let mut ok = true;
    for p in 0..t.planes {
        let from = p * (t.height * t.width) + r * t.width;
        ok &= samples::block_good(d, from + lo, from + hi);
    }
    ok
}

// Whether the rows from a to below b are good in every plane: no further than the first that is not.
pub fn rows_good(d: &[f32], t: Shape, a: usize, b: usize) -> bool
    requires { (length d.now ≡ t.planes * t.height * t.width) × ((a ≤ b) × (b ≤ t.height)) }
    ensures { result ≡ rows_good t a b d.now }
{
    (a..b).all(|r| span_good(d, t, r, 0, t.width))
}
