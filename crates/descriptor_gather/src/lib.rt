// The samples of a patch, row by row, added to the histogram and counted.
#![tactic(auto)]

ghost use Rattle.std.specs.Prelude.{◌≡◌, true, cond, [], length};
ghost use Rattle.params.specs.Table.{all_good};
ghost use Rattle.picture.specs.Picture.{four_at};
ghost use Rattle.picture.specs.Place.{Around};
ghost use Rattle.descriptor_patch.specs.Patch.{grid_at};
ghost use Rattle.descriptor_run.specs.Cells.{reads_of, samples_of};
ghost use Rattle.descriptor_run.specs.Run.{over_run};
ghost use Rattle.descriptor_run.specs.Place.{Inner};
ghost use Rattle.descriptor_grid.specs.Grid.{gathered_in};
ghost use Rattle.descriptor_gather.specs.Gather.{sample_in, Patched};

use descriptor_patch::{Patch, Rots};
use descriptor_run::Run;
use descriptor_shares::Landed;

// One cell: its sample is added where it lies in the grid. How many samples that are. The row is tested and split before the column is worked out, so that the
// compiler does not do both at a time, which is slower.
fn cell(img: &[f32], t: Patch, r: usize, c: usize, hist: &mut [f32; 360]) -> usize
    requires { Patched (length img.now) t × (Around (length img.now) t.size r c × (all_good (cond (grid_at t r c) (four_at img.now t.size.width r c) []) ≡ true)) }
    ensures { (hist.new ≡ gathered_in t.angle hist.old (cond (grid_at t r c) (sample_in img.now t r c) [])) × (result ≡ length (cond (grid_at t r c) (sample_in img.now t r c) [])) }
{
    let row = descriptor_patch::rot_row(t, r, c);
    let rbin = descriptor_patch::bin_of(row);
    if descriptor_patch::in_grid(rbin) {
        let rs = descriptor_shares::split_of(rbin);
        let col = descriptor_patch::rot_col(t, r, c);
        let cbin = descriptor_patch::bin_of(col);
        if descriptor_patch::in_grid(cbin) {
            let cs = descriptor_shares::split_of(cbin);
            let s = descriptor_patch::sample_at(img, t, r, c, Rots { col, row });
            let l = Landed {
                sample: s,
                row: rs,
                col: cs,
            };
            descriptor_grid::add(hist, t.angle, l);
            return 1;
        }
    }
    0
}

// A run of row r.
fn run(img: &[f32], t: Patch, r: usize, e: Run, hist: &mut [f32; 360]) -> usize
    requires { Patched (length img.now) t × (Inner t r e × (all_good (over_run t r (four_at img.now t.size.width) e) ≡ true)) }
    ensures { (hist.new ≡ gathered_in t.angle hist.old (over_run t r (sample_in img.now t) e)) × (result ≡ length (over_run t r (sample_in img.now t) e)) }
{
    let mut n: usize = 0;
    for c in e.first..e.past {
        n += cell(img, t, r, c, hist);
    }
    n
}

// Adds every sample of the patch to the histogram, in reading order, and counts them.
pub fn gather(img: &[f32], t: Patch, hist: &mut [f32; 360]) -> usize
    requires { Patched (length img.now) t × (all_good (reads_of img.now t) ≡ true) }
    ensures { (hist.new ≡ gathered_in t.angle hist.old (samples_of img.now t)) × (result ≡ length (samples_of img.now t)) }
{
    let top = picture::first_in(t.py, t.radius);
    let bottom = picture::past_in(t.py, t.radius, t.size.height);
    let mut n: usize = 0;
    for r in top..bottom {
        let e = descriptor_run::run_of(t, r);
        n += run(img, t, r, e, hist);
    }
    n
}
