// A cell of one layer of a stack of difference planes: whether it is loud, and the search among its neighbours.
#![tactic(auto)]

ghost use Rattle.std.specs.Prelude.{◌≡◌, length};
ghost use Rattle.ieee.specs.F32.{◌<ᶠ◌};
ghost use Rattle.ieee.specs.Numbers.{nought};
ghost use Rattle.picture.specs.Stack.{sample};
ghost use Rattle.detect_fit.specs.Place.{Around};
ghost use Rattle.detect_extrema.specs.Neighbours.{tied, keeps_as, centre, is_extremum, loud};

use picture::Shape;

// The middle one of the 27 places about a cell is the cell itself.
fn is_centre(i: usize, j: usize, k: usize) -> bool
    ensures { result ≡ centre i j k }
{
    (i == 1) & ((j == 1) & (k == 1))
}

// Whether a cell stands beside a neighbour: as the larger where `up`, else as the smaller. Ties pass.
fn keeps(up: bool, val: f32, other: f32) -> bool
    ensures { result ≡ keeps_as tied up val other }
{
    if up { val >= other } else { val <= other }
}

// Whether none of its 26 neighbours beats the cell (p, r, c). The search stops at the first that does: rule D4.
#[tactic(auto, using(lists::proofs::Every::every_none), unfolding(crate::specs::Neighbours::is_extremum))]
fn stands(dog: &[f32], t: Shape, p: usize, r: usize, c: usize, up: bool) -> bool
    requires around { Around (length dog.now) t p r c }
    requires up_value { up ≡ (nought <ᶠ sample dog.now t p r c) }
    ensures { result ≡ is_extremum tied dog.now t p r c }
{
    let plane = t.height * t.width;
    let first = ((p - 1) * t.height + (r - 1)) * t.width + (c - 1);
    let val = picture::at(dog, t, p, r, c);
    let mut ok = true;
    'nb: for i in 0..3 {
        for j in 0..3 {
            for k in 0..3 {
                if is_centre(i, j, k) {
                    continue;
                }
                let other = dog[first + i * plane + j * t.width + k];
                if !keeps(up, val, other) {
                    ok = false;
                    break 'nb;
                }
            }
        }
    }
    ok
}

// Whether a cell is an extremum among its neighbours. A positive one has to be the larger, any other the smaller.
pub fn is_extremum(dog: &[f32], t: Shape, p: usize, r: usize, c: usize) -> bool
    requires { Around (length dog.now) t p r c }
    ensures { result ≡ is_extremum tied dog.now t p r c }
{
    stands(dog, t, p, r, c, picture::at(dog, t, p, r, c) > 0.0)
}

// Whether the magnitude exceeds the threshold.
#[tactic(auto, unfolding(crate::specs::Neighbours::loud))]
pub fn is_loud(threshold: f32, val: f32) -> bool
    ensures { result ≡ loud threshold val }
{
    ieee::abs(val) > threshold
}
