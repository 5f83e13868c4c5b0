// The patch of a descriptor: how it lies, where a cell lies in it, and what a cell gives.
#![tactic(auto)]

ghost use Rattle.std.specs.Prelude.{◌≡◌, ◌<◌, ◌≤◌, true, length, pos, ◌-ℤ◌};
ghost use Rattle.ieee.specs.F32.{float_z};
ghost use Rattle.params.specs.Limits.{max_side, scale_low, scale_high};
ghost use Rattle.params.specs.Table.{within};
ghost use Rattle.picture.specs.Place.{Around};
ghost use Rattle.descriptor_patch.specs.Patch.{reach_of, radius_of, patch_of, rots_of, bin_of, in_grid, sample_at};
ghost use Rattle.descriptor_patch.specs.Place.{max_radius, Sides, Lies};

use picture::Size;

// How a patch lies on a picture: the picture's size, the angle that it is turned by, that angle's cosine and sine over the width of a cell of the grid, the radius, and the cell of the position.
#[derive(Clone, Copy)]
pub struct Patch {
    pub size: Size,
    pub angle: f32,
    pub cos: f32,
    pub sin: f32,
    pub radius: usize,
    pub px: usize,
    pub py: usize,
}

// A cell's place in the turned patch, in cells of the grid.
#[derive(Clone, Copy)]
pub struct Rots {
    pub col: f32,
    pub row: f32,
}

// A cell of the patch that lies in the grid: its gradient, where it lies in the grid, and the exponent of its weight.
#[derive(Clone, Copy)]
pub struct Sample {
    pub dx: f32,
    pub dy: f32,
    pub rbin: f32,
    pub cbin: f32,
    pub fall: f32,
}

// ---- how the patch lies

// a - b as a float.
pub fn apart(a: usize, b: usize) -> f32
    requires { (a ≤ max_side) × (b ≤ max_side) }
    ensures { result ≡ float_z (pos a -ℤ pos b) }
{
    (a as i32 - b as i32) as f32
}

// hist_width * sqrt(2) * 5 * 0.5, rounded: at most 3 * 64 * 1.41421356 * 2.5, some 679 (`max_radius`).
fn reach_of(scale: f32) -> usize
    requires { within scale_low scale_high scale ≡ true }
    ensures { (result ≡ reach_of scale) × (result ≤ max_radius) }
{
    let width = 3.0 * scale;
    std::num::truncating_f32_to_u64(ieee_whole::round_ties_even(
        width * 1.41421356 * 5.0 * 0.5,
    )) as usize
}

// The reach, but at most the picture's diagonal, cut to a whole number. A diagonal of 1024 and more is beyond every reach.
fn radius_of(s: Size, scale: f32) -> usize
    requires { Sides s × (within scale_low scale_high scale ≡ true) }
    ensures { (result ≡ radius_of s scale) × (result ≤ max_radius) }
{
    let reach = reach_of(scale);
    let x = s.width as f32;
    let y = s.height as f32;
    let d = ieee_root::sqrt(x * x + y * y);
    if d < 1024.0 {
        let k = std::num::truncating_f32_to_u64(d) as usize;
        k.min(reach)
    } else {
        reach
    }
}

// How the patch about the cell (py, px) lies.
pub fn patch_of(s: Size, px: usize, py: usize, scale: f32, angle: f32) -> Patch
    requires { Sides s × ((px < s.width) × ((py < s.height) × (within scale_low scale_high scale ≡ true))) }
    ensures { (result ≡ patch_of s px py scale angle) × Lies result }
{
    let width = 3.0 * scale;
    Patch {
        size: s,
        angle,
        cos: hal_turn::cos(angle) / width,
        sin: hal_turn::sin(angle) / width,
        radius: radius_of(s, scale),
        px,
        py,
    }
}

// ---- a cell

// c_rot of the cell (r, c), and r_rot: each by itself, so that the column is not worked out for a cell whose row lies outside the grid.
pub fn rot_col(t: Patch, r: usize, c: usize) -> f32
    requires { (r ≤ max_side) × ((c ≤ max_side) × ((t.py ≤ max_side) × (t.px ≤ max_side))) }
    ensures { result ≡ (rots_of t r c).col }
{
    apart(c, t.px) * t.cos - apart(r, t.py) * t.sin
}

pub fn rot_row(t: Patch, r: usize, c: usize) -> f32
    requires { (r ≤ max_side) × ((c ≤ max_side) × ((t.py ≤ max_side) × (t.px ≤ max_side))) }
    ensures { result ≡ (rots_of t r c).row }
{
    apart(c, t.px) * t.sin + apart(r, t.py) * t.cos
}

// Its place in the grid, along one side.
pub fn bin_of(rot: f32) -> f32
    ensures { result ≡ bin_of rot }
{
    rot + 2.0 - 0.5
}

// Above -1 and below 4: one test after the other, since with both at once the compiler takes row and column together, which is slower.
pub fn in_grid(bin: f32) -> bool
    ensures { result ≡ in_grid bin }
{
    bin > -1.0 && bin < 4.0
}

// The cell (r, c), which lies at p in the turned patch, as a sample.
pub fn sample_at(img: &[f32], t: Patch, r: usize, c: usize, p: Rots) -> Sample
    requires { Around (length img.now) t.size r c × (Lies t × (p ≡ rots_of t r c)) }
    ensures { result ≡ sample_at img.now t r c }
{
    let g = picture::slope_at(img, t.size, r, c);
    Sample {
        dx: g.dx,
        dy: g.dy,
        rbin: bin_of(p.row),
        cbin: bin_of(p.col),
        fall: (p.col * p.col + p.row * p.row) * -0.125,
    }
}
