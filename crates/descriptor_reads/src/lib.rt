// The test of what is read of a patch: the four neighbours of each used cell.
#![tactic(auto)]

ghost use Rattle.std.specs.Prelude.{◌≡◌, cond, [], ◌*◌, ◌≤◌, length};
ghost use Rattle.params.specs.Limits.{max_side};
ghost use Rattle.params.specs.Table.{all_good};
ghost use Rattle.picture.specs.Picture.{four_at};
ghost use Rattle.picture.specs.Place.{Around};
ghost use Rattle.descriptor_patch.specs.Patch.{grid_at};
ghost use Rattle.descriptor_patch.specs.Place.{Lies};
ghost use Rattle.descriptor_run.specs.Cells.{reads_of};
ghost use Rattle.descriptor_run.specs.Run.{over_run};
ghost use Rattle.descriptor_run.specs.Place.{Inner};

use descriptor_patch::Patch;
use descriptor_run::Run;
use samples::Area;

// Whether the cell (r, c) lies in the grid.
fn grid_at(t: Patch, r: usize, c: usize) -> bool
    requires { (r ≤ max_side) × ((c ≤ max_side) × ((t.py ≤ max_side) × (t.px ≤ max_side))) }
    ensures { result ≡ grid_at t r c }
{
    descriptor_patch::in_grid(descriptor_patch::bin_of(descriptor_patch::rot_row(t, r, c)))
        & descriptor_patch::in_grid(descriptor_patch::bin_of(descriptor_patch::rot_col(t, r, c)))
}

// The neighbours of one cell, where it is used.
fn cell_good(img: &[f32], t: Patch, r: usize, c: usize) -> bool
    requires { Around (length img.now) t.size r c × Lies t }
    ensures { result ≡ all_good (cond (grid_at t r c) (four_at img.now t.size.width r c) []) }
{
    !grid_at(t, r, c) | samples::four_good(img, t.size, r, c)
}

// Those of a run of row r.
fn row_good(img: &[f32], t: Patch, r: usize, e: Run) -> bool
    requires { (length img.now ≡ t.size.height * t.size.width) × (Lies t × Inner t r e) }
    ensures { result ≡ all_good (over_run t r (four_at img.now t.size.width) e) }
{
    let mut ok = true;
    for c in e.first..e.past {
        ok &= cell_good(img, t, r, c);
    }
    ok
}

// Whether what is read is in range, row by row and cell by cell.
fn reads_good(img: &[f32], t: Patch) -> bool
    requires { (length img.now ≡ t.size.height * t.size.width) × Lies t }
    ensures { result ≡ all_good (reads_of img.now t) }
{
    let top = picture::first_in(t.py, t.radius);
    let bottom = picture::past_in(t.py, t.radius, t.size.height);
    let mut ok = true;
    for r in top..bottom {
        ok &= row_good(img, t, r, descriptor_run::run_of(t, r));
    }
    ok
}

// Whether all that is read is in range. The window with the cells round it holds it all, and more: where these are good nothing else is asked.
pub fn patch_good(img: &[f32], t: Patch) -> bool
    requires { (length img.now ≡ t.size.height * t.size.width) × Lies t }
    ensures { result ≡ all_good (reads_of img.now t) }
{
    let window = Area {
        top: picture::first_in(t.py, t.radius),
        bottom: picture::past_in(t.py, t.radius, t.size.height),
        left: picture::first_in(t.px, t.radius),
        right: picture::past_in(t.px, t.radius, t.size.width),
    };
    samples::area_good(img, t.size, window) || reads_good(img, t)
}
