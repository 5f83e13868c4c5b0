// A stack of planes and a picture, as lists of samples: how a sample and a slope are read.
#![tactic(auto)]

ghost use Rattle.std.specs.Prelude.{◌≡◌, ◌<◌, ◌≤◌, length};
ghost use Rattle.params.specs.Limits.{max_side};
ghost use Rattle.picture.specs.Picture.{pixel, slope_at, first_in, past_in};
ghost use Rattle.picture.specs.Stack.{sample};
ghost use Rattle.picture.specs.Place.{Inside, Within, Around};

// So many planes, one after the other, each so many rows of so many samples.
#[derive(Clone, Copy)]
pub struct Shape {
    pub width: usize,
    pub height: usize,
    pub planes: usize,
}

// A picture is so many rows of so many samples.
#[derive(Clone, Copy)]
pub struct Size {
    pub width: usize,
    pub height: usize,
}

// Where a descriptor is asked for: a position in cells of the picture, the scale there, and the angle in degrees that the patch is turned by.
#[derive(Clone, Copy)]
pub struct Spot {
    pub x: f32,
    pub y: f32,
    pub scale: f32,
    pub angle: f32,
}

// The differences across a cell.
#[derive(Clone, Copy)]
pub struct Slope {
    pub dx: f32,
    pub dy: f32,
}

// The sample of plane p at row r, column c of a stack.
#[tactic(auto, using(crate::proofs::Index::index), unfolding(crate::specs::Stack::sample, crate::specs::Picture::pixel))]
pub fn at(d: &[f32], t: Shape, p: usize, r: usize, c: usize) -> f32
    requires { Inside (length d.now) t p r c }
    ensures { result ≡ sample d.now t p r c }
{
    d[(p * t.height + r) * t.width + c]
}

// The sample at row r, column c of a picture.
#[tactic(auto, using(crate::proofs::Index::spot), unfolding(crate::specs::Picture::pixel))]
pub fn pixel_at(img: &[f32], s: Size, r: usize, c: usize) -> f32
    requires { Within (length img.now) s r c }
    ensures { result ≡ pixel img.now s.width r c }
{
    img[r * s.width + c]
}

// The slope at the cell (r, c) of a picture.
#[tactic(auto, unfolding(crate::specs::Picture::slope_at))]
pub fn slope_at(img: &[f32], s: Size, r: usize, c: usize) -> Slope
    requires { Around (length img.now) s r c }
    ensures { result ≡ slope_at img.now s.width r c }
{
    Slope {
        dx: pixel_at(img, s, r, c + 1) - pixel_at(img, s, r, c - 1),
        dy: pixel_at(img, s, r - 1, c) - pixel_at(img, s, r + 1, c),
    }
}

// The first place within the radius that is not on the edge.
pub fn first_in(at: usize, radius: usize) -> usize
    ensures { result ≡ first_in at radius }
{
    at.saturating_sub(radius).max(1)
}

// The one after the last, of a side.
pub fn past_in(at: usize, radius: usize, side: usize) -> usize
    requires { (at < side) × ((side ≤ max_side) × (radius ≤ max_side)) }
    ensures { result ≡ past_in at radius side }
{
    (at + radius + 1).min(side - 1)
}
