// The tally of a window: its cells run by run, and the tally that is lent from sample to sample.
#![tactic(auto)]

ghost use Rattle.std.specs.Prelude.{◌≡◌, ◌+◌, ◌*◌, ◌<◌, ◌≤◌};
ghost use Rattle.params.specs.Limits.{max_side};
ghost use Rattle.orient_tally.specs.Tally.{early, tally_of, gathered_of};
ghost use Rattle.orient_tally.specs.Place.{InRange};
ghost use Rattle.orient_gather.specs.Runs.{run_of, run_length};

use orient_tally::{Gathered, Run, Tally};
use orient_window::Window;

// How many of n samples are early: all but the last n mod 4.
fn early_of(n: usize) -> usize
    ensures { result ≡ early n }
{
    n - n % 4
}

// Of n cells read the longest run that starts with the one after k others, lies in one row, and is early or late as a whole: where it starts.
fn run_at(win: Window, n: usize, k: usize) -> Run
    requires { (win.top + win.rows ≤ max_side) × ((win.left + win.cols ≤ max_side) × ((n ≡ win.rows * win.cols) × (k < n))) }
    ensures { result ≡ run_of win n k }
{
    Run {
        win,
        y: win.top + k / win.cols,
        from: win.left + k % win.cols,
        late: early_of(n) <= k,
    }
}

// How many cells it has: as many as are left of the row, or of the early ones.
fn cells_at(win: Window, n: usize, k: usize) -> usize
    requires { (n ≡ win.rows * win.cols) × (k < n) }
    ensures { result ≡ run_length win n k }
{
    let early = early_of(n);
    let rest = win.cols - k % win.cols;
    if early <= k {
        rest
    } else {
        rest.min(early - k)
    }
}

// The tally is lent from sample to sample, run after run of the n cells that are read: a step is as long as its run, so that nothing is asked of a cell but its sample.
fn gather(img: &[f32], win: Window, n: usize) -> Tally
    requires in_range { InRange img.now win }
    requires cells { n ≡ win.rows * win.cols }
    ensures { result ≡ tally_of img.now win }
{
    let mut t = orient_tally::fresh();
    let mut k = 0;
    while k < n {
        let run = run_at(win, n, k);
        let m = cells_at(win, n, k);
        for i in 0..m {
            orient_tally::add_sample(&mut t, orient_tally::sample_at(img, run, i));
        }
        k += m;
    }
    t
}

// The tally of a window, and the number of cells read.
pub fn tally_of(img: &[f32], win: Window) -> Gathered
    requires { InRange img.now win }
    ensures { result ≡ gathered_of img.now win }
{
    let read = win.rows * win.cols;
    Gathered {
        tally: gather(img, win, read),
        read,
    }
}
