// The tally of 36 bins about a keypoint: the sample of a cell, and the tally that it is added to where it lies.
#![tactic(auto)]

ghost use Rattle.std.specs.Prelude.{◌≡◌, true, ◌+◌, ◌*◌, ◌<◌, ◌≤◌, pos};
ghost use Rattle.params.specs.Limits.{max_side};
ghost use Rattle.hal.specs.Exp.{in_down};
ghost use Rattle.hal_angle.specs.Angle.{angle_of};
ghost use Rattle.hal_reach.specs.Reach.{in_angle};
ghost use Rattle.orient_window.specs.Window.{cell};
ghost use Rattle.orient_window.specs.Place.{max_reach};
ghost use Rattle.orient_tally.specs.Sample.{bins, apart, weight_at, bin_of};
ghost use Rattle.orient_tally.specs.Tally.{share_of, added, tallied, empty};
ghost use Rattle.orient_tally.specs.Place.{Near, exponent_at, Asked};
ghost use Rattle.orient_tally.specs.Runs.{sample_in};

use orient_window::Window;

// The tally: a sum of weighted magnitudes for each 10 degrees of direction.
#[derive(Clone, Copy)]
pub struct Tally {
    pub bins: [f32; 36],
}

// What one cell gives. A late sample is added by the fused form.
#[derive(Clone, Copy)]
pub struct Sample {
    pub bin: usize,
    pub weight: f32,
    pub magnitude: f32,
    pub late: bool,
}

// Cells of row y, one after the other from a column on, that are all early or all late.
#[derive(Clone, Copy)]
pub struct Run {
    pub win: Window,
    pub y: usize,
    pub from: usize,
    pub late: bool,
}

// The tally of a window, and the number of cells read for it.
#[derive(Clone, Copy)]
pub struct Gathered {
    pub tally: Tally,
    pub read: usize,
}

// ---- a sample

// The square of how far apart two places are. A signed difference: the library's `abs_diff` took a tenth longer here.
fn square(a: usize, b: usize) -> i32
    requires { (a ≤ max_side) × (apart a b ≤ max_reach) }
    ensures { result ≡ pos (apart a b * apart a b) }
{
    let d = a as i32 - b as i32;
    d * d
}

fn weight_at(win: Window, y: usize, x: usize) -> f32
    requires near { Near win y x }
    requires down { in_down (exponent_at win (cell y x)) ≡ true }
    ensures { result ≡ weight_at win (cell y x) }
{
    let sum = square(y, win.row) + square(x, win.col);
    hal::exp_in((sum as f32) * win.falloff)
}

// The bin of a direction. From 2^23 = 8388608 on every f32 is whole, so that the sum rounds the turn, ties to even, and its last bits are the whole number: at most 36,
// which six of them hold.
fn bin_of(dx: f32, dy: f32) -> usize
    requires { in_angle dx dy ≡ true }
    ensures value { result ≡ bin_of (angle_of dx dy) }
    ensures small { result < bins }
{
    let turn = 0.1 * hal_angle::angle_in(dx, dy);
    let b = ((turn + 8388608.0).to_bits() % 64) as usize;
    if b >= 36 { b - 36 } else { b }
}

// The sample of cell i of a run.
#[tactic(auto, unfolding(crate::specs::Runs::sample_in))]
pub fn sample_at(img: &[f32], run: Run, i: usize) -> Sample
    requires { Asked img.now run.win run.y (run.from + i) }
    ensures value { result ≡ sample_in img.now run i }
    ensures placed { result.bin < bins }
{
    let win = run.win;
    let x = run.from + i;
    let s = picture::slope_at(img, win.size, run.y, x);
    Sample {
        bin: bin_of(s.dx, s.dy),
        weight: weight_at(win, run.y, x),
        magnitude: hal_magnitude::magnitude_in(s.dx, s.dy),
        late: run.late,
    }
}

// ---- the tally

// At most three samples are late. They take the general form, since the short one begins with the plain product: shared with the early samples it would make each of them
// wait for the one before.
#[tactic(auto, unfolding(crate::specs::Tally::share_of))]
fn share(old: f32, s: Sample) -> f32
    ensures { result ≡ share_of old s }
{
    if s.late {
        ieee_fused::fma_general(s.weight, s.magnitude, old)
    } else {
        old + s.weight * s.magnitude
    }
}

#[tactic(auto, unfolding(crate::specs::Tally::empty))]
pub fn fresh() -> Tally
    ensures { result ≡ empty }
{
    Tally { bins: [0.0; 36] }
}

// The tally is lent, and filled where it lies.
#[tactic(auto, unfolding(crate::specs::Tally::tallied, crate::specs::Tally::added))]
pub fn add_sample(t: &mut Tally, s: Sample)
    requires { s.bin < bins }
    ensures { t.new ≡ tallied t.old s }
{
    let bin = s.bin;
    t.bins[bin] = share(t.bins[bin], s);
}
