// From the tally of 36 bins to the angles of a keypoint: smoothing, the strict peaks, and the parabola through each.
#![tactic(auto)]

ghost use Rattle.std.specs.Prelude.{◌≡◌, ◌<◌};
ghost use Rattle.orient_tally.specs.Sample.{bins};
ghost use Rattle.orient_peaks.specs.Peaks.{around, smooth_at, smoothed, largest_to, least_of, is_peak, crest_of, wrapped, closed, degrees_of, peak_angle, angles_in, angles_of};
ghost use Rattle.orient_peaks.specs.Found.{held_of};

// The angles found, in the first `count` places; the other places hold +0. An array with its count beside it, since the law PeakRule says of these two that each angle has a place.
#[derive(Clone, Copy)]
pub struct Angles {
    pub all: [f32; 36],
    pub count: usize,
}

#[tactic(auto, unfolding(crate::specs::Peaks::around))]
fn bin_around(b: &[f32; 36], k: usize) -> f32
    ensures { result ≡ around b.now k }
{
    b[k % 36]
}

#[tactic(auto, unfolding(crate::specs::Peaks::smooth_at))]
fn smooth_at(b: &[f32; 36], i: usize) -> f32
    requires { i < bins }
    ensures { result ≡ smooth_at b.now i }
{
    let far = bin_around(b, i + 36 - 2) + bin_around(b, i + 2);
    let near = bin_around(b, i + 36 - 1) + bin_around(b, i + 1);
    let own = bin_around(b, i) * 0.375;
    ieee_fused::add_part(far, 0.0625, ieee_fused::add_part(near, 0.25, own))
}

fn smooth(b: &[f32; 36]) -> [f32; 36]
    ensures { result ≡ smoothed b.now }
{
    std::array::from_fn(|i| smooth_at(b, i))
}

fn least_of(h: &[f32; 36]) -> f32
    ensures { result ≡ least_of h.now }
{
    let mut top = h[0];
    for v in &h[1..] {
        top = bounds::greater(top, *v);
    }
    top * 0.8
}

#[tactic(auto, unfolding(crate::specs::Peaks::is_peak))]
fn is_peak(h: &[f32; 36], least: f32, j: usize) -> bool
    requires { j < bins }
    ensures { result ≡ is_peak h.now least j }
{
    let m = bin_around(h, j);
    let l = bin_around(h, j + 36 - 1);
    let r = bin_around(h, j + 1);
    (m > l) & ((m > r) & (m >= least))
}

// The top of the parabola through a peak at bin j and its neighbours.
#[tactic(auto, unfolding(crate::specs::Peaks::crest_of))]
fn crest(j: usize, l: f32, m: f32, r: f32) -> f32
    requires { j < bins }
    ensures { result ≡ crest_of j l m r }
{
    let den = l - 2.0 * m + r;
    (j as u16) as f32 + 0.5 * (l - r) / den
}

#[tactic(auto, unfolding(crate::specs::Peaks::wrapped))]
fn back_in(b: f32) -> f32
    ensures { result ≡ wrapped b }
{
    if b < 0.0 {
        36.0 + b
    } else if b >= 36.0 {
        b - 36.0
    } else {
        b
    }
}

// An angle within f32 epsilon, 2^-23 = 0.00000011920929, of a whole turn is 0. Next to 360 an f32 is 2^-15 away, so that this is 360 itself.
#[tactic(auto, unfolding(crate::specs::Peaks::closed))]
fn closed_at(a: f32) -> f32
    ensures { result ≡ closed a }
{
    if ieee::abs(a - 360.0) < 0.00000011920929 {
        0.0
    } else {
        a
    }
}

#[tactic(auto, unfolding(crate::specs::Peaks::peak_angle, crate::specs::Peaks::degrees_of))]
fn peak_angle(h: &[f32; 36], j: usize) -> f32
    requires { j < bins }
    ensures { result ≡ peak_angle h.now j }
{
    let l = bin_around(h, j + 36 - 1);
    let m = bin_around(h, j);
    let r = bin_around(h, j + 1);
    closed_at(ieee_fused::mul_add(-10.0, back_in(crest(j, l, m, r)), 360.0))
}

fn angles_in(h: &[f32; 36]) -> Angles
    ensures { result ≡ held_of (angles_in h.now) }
{
    let least = least_of(h);
    let mut all = [0.0; 36];
    let mut count: usize = 0;
    for j in 0..36 {
        if is_peak(h, least, j) {
            all[count] = peak_angle(h, j);
            count += 1;
        }
    }
    Angles { all, count }
}

// The angles that a tally gives, none where there is no peak.
#[tactic(auto, unfolding(crate::specs::Peaks::angles_of))]
pub fn angles_of(b: &[f32; 36]) -> Angles
    ensures { result ≡ held_of (angles_of b.now) }
{
    let h = smooth(b);
    angles_in(&h)
}
