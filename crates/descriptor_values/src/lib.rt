// From a descriptor's histogram to its 128 values.
#![tactic(auto)]

ghost use Rattle.std.specs.Prelude.{◌≡◌, ℕ, ◌+◌, ◌*◌, ◌/◌, ◌%◌, ◌<◌};
ghost use Rattle.ieee.specs.F32.{fused};
ghost use Rattle.params.specs.Limits.{value_count};
ghost use Rattle.descriptor_values.specs.Values.{folded_at, raw_of, at, norm2, clamped, plain_norm, scale_of, finished, values_of};

// The cells of a side of the histogram, and the slots of a cell.
pub const CELLS: usize = 6;

pub const SLOTS: usize = 10;

// Value n of the inner cells: slot n % 8 of the cell at row n / 32, column n / 8 % 4. The first slot takes the ninth.
fn folded(hist: &[f32; 360], n: usize) -> f32
    requires { n < value_count }
    ensures { result ≡ folded_at hist.now (n / 32) (n / 8 % 4) (n % 8) }
{
    let at = ((n / 32 + 1) * CELLS + (n / 8 % 4 + 1)) * SLOTS;
    let k = n % 8;
    if k == 0 {
        hist[at] + hist[at + 8]
    } else {
        hist[at + k]
    }
}

fn raw(hist: &[f32; 360]) -> [f32; 128]
    ensures { result ≡ raw_of hist.now }
{
    let mut v = [0.0; 128];
    for n in 0..128 {
        v[n] = folded(hist, n);
    }
    v
}

// The square of value k added to s, rounded once.
fn with_square(v: &[f32; 128], k: usize, s: f32) -> f32
    requires { k < value_count }
    ensures { result ≡ fused (at v.now k) (at v.now k) s }
{
    let x = v[k];
    ieee_fused::mul_add(x, x, s)
}

// The four fused sums, each of every fourth value, go side by side, so that none waits for another.
fn nrm2(v: &[f32; 128]) -> f32
    ensures { result ≡ norm2 v.now }
{
    let mut a: f32 = 0.0;
    let mut b: f32 = 0.0;
    let mut c: f32 = 0.0;
    let mut d: f32 = 0.0;
    for n in 0..32 {
        a = with_square(v, 4 * n, a);
        b = with_square(v, 4 * n + 1, b);
        c = with_square(v, 4 * n + 2, c);
        d = with_square(v, 4 * n + 3, d);
    }
    (a + b) + (c + d)
}

// Each value held to 0.2 of the norm's root, in place.
fn clamp_all(v: &mut [f32; 128])
    ensures { v.new ≡ clamped v.old }
{
    let thr = ieee_root::sqrt(nrm2(v)) * 0.2;
    for x in v.iter_mut() {
        *x = bounds::min(*x, thr);
    }
}

// The sum of the squares, each product and each sum rounded.
fn plain_sum(v: &[f32; 128]) -> f32
    ensures { result ≡ plain_norm v.now value_count }
{
    let mut s: f32 = 0.0;
    for x in v {
        s += *x * *x;
    }
    s
}

// 512 over the larger of the root and f32 epsilon, 2^-23 = 0.00000011920929.
fn scale(v: &[f32; 128]) -> f32
    ensures { result ≡ scale_of v.now }
{
    512.0 / bounds::max(ieee_root::sqrt(plain_sum(v)), 0.00000011920929)
}

// Scaled, rounded, and held in 0 to 255, in place.
fn finish(v: &mut [f32; 128])
    ensures { v.new ≡ finished v.old }
{
    let by = scale(v);
    for x in v.iter_mut() {
        *x = bounds::clamp(ieee_whole::round_ties_even(*x * by), 0.0, 255.0);
    }
}

// The 128 values of a histogram.
pub fn values(hist: &[f32; 360]) -> [f32; 128]
    ensures { result ≡ values_of hist.now }
{
    let mut v = raw(hist);
    clamp_all(&mut v);
    finish(&mut v);
    v
}
