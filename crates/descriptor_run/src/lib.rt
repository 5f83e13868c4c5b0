// The run of each row of a patch: its ends, and the columns of the picture between them, so that no other cell of the row is looked at.
#![tactic(auto)]

ghost use Rattle.std.specs.Prelude.{◌≡◌, ◌<◌, ◌≤◌};
ghost use Rattle.params.specs.Limits.{max_side};
ghost use Rattle.descriptor_run.specs.Cells.{clip_j, ends_of};
ghost use Rattle.descriptor_run.specs.Run.{columns as columns_of, run_of};

use descriptor_patch::Patch;

// The ends of a row's run of columns, as distances from the position.
#[derive(Clone, Copy)]
pub struct Ends {
    pub lo: f32,
    pub hi: f32,
}

// Columns from `first` to below `past`. A record of its own: it is copied, as a `Range` can't be, and the proofs see a loop's column as a number.
#[derive(Clone, Copy)]
pub struct Run {
    pub first: usize,
    pub past: usize,
}

// Draws the ends in to the j with -1 < j * coef + off < 4.
fn clip_j(coef: f32, off: f32, e: Ends) -> Ends
    ensures { result ≡ clip_j coef off e }
{
    if coef > 0.0 {
        Ends {
            lo: bounds::max(e.lo, (-1.0 - off) / coef),
            hi: bounds::min(e.hi, (4.0 - off) / coef),
        }
    } else if coef < 0.0 {
        Ends {
            lo: bounds::max(e.lo, (4.0 - off) / coef),
            hi: bounds::min(e.hi, (-1.0 - off) / coef),
        }
    } else if (off > -1.0) & (off < 4.0) {
        e
    } else {
        Ends { lo: 1.0, hi: 0.0 }
    }
}

fn ends_of(t: Patch, r: usize) -> Ends
    requires { (r ≤ max_side) × ((t.py ≤ max_side) × (t.radius ≤ max_side)) }
    ensures { result ≡ ends_of t r }
{
    let i = descriptor_patch::apart(r, t.py);
    let reach = t.radius as f32;
    let all = Ends {
        lo: -reach,
        hi: reach,
    };
    let rows = clip_j(t.sin, i * t.cos + 1.5, all);
    clip_j(t.cos, -i * t.sin + 1.5, rows)
}

// The run's columns among those from a to below b.
fn columns(a: usize, b: usize, px: usize, e: Ends) -> Run
    requires { px ≤ max_side }
    ensures { result ≡ columns_of a b px e }
{
    if e.hi < e.lo {
        Run { first: a, past: 0 }
    } else {
        let lo = px.saturating_add_signed(ieee_whole::floor_to_i32(e.lo) as isize);
        let hi = (px + 2).saturating_add_signed(
            ieee_whole::to_i32(-ieee_whole::floor(-e.hi)) as isize,
        );
        Run {
            first: a.max(lo.saturating_sub(1)),
            past: b.min(hi),
        }
    }
}

// The columns of the window and of the run of row r.
pub fn run_of(t: Patch, r: usize) -> Run
    requires { (r ≤ max_side) × ((t.size.width ≤ max_side) × ((t.px < t.size.width) × ((t.py ≤ max_side) × (t.radius ≤ max_side)))) }
    ensures { result ≡ run_of t r }
{
    let a = picture::first_in(t.px, t.radius);
    let b = picture::past_in(t.px, t.radius, t.size.width);
    columns(a, b, t.px, ends_of(t, r))
}
