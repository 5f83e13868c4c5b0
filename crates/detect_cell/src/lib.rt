// What a cell gives: the keypoint that it is refined to, where it is a candidate, and else nothing.
#![tactic(auto)]

ghost use Rattle.std.specs.Prelude.{◌≡◌, length, option_to_list};
ghost use Rattle.detect_refine.specs.Place.{Searched, Placed};
ghost use Rattle.detect_extrema.specs.Neighbours.{tied};
ghost use Rattle.detect_extrema.specs.Scan.{cell_of, found};
ghost use Rattle.detect_look.specs.Hints.{hint_at};

use detect_keypoint::{Cell, RawKeypoint, Search};
use picture::Shape;

// What a cell gives: nothing where it is no candidate, else what it is refined to.
pub fn cell(dog: &[f32], t: Shape, s: Search, r: usize, c: usize) -> Option<RawKeypoint>
    requires searched { Searched (length dog.now) t s }
    requires placed { Placed t s.settings.layers (cell_of s r c) }
    ensures { option_to_list result ≡ found tied dog.now t s r c }
{
    if !detect_extrema::is_loud(s.threshold, picture::at(dog, t, s.layer, r, c)) {
        return None;
    }
    if !detect_extrema::is_extremum(dog, t, s.layer, r, c) {
        return None;
    }
    detect_refine::refine(dog, t, s, Cell { p: s.layer, r, c })
}

// What a cell gives after the first look at it, whose result is `mark`.
pub fn seen(mark: bool, dog: &[f32], t: Shape, s: Search, r: usize, c: usize) -> Option<RawKeypoint>
    requires searched { Searched (length dog.now) t s }
    requires placed { Placed t s.settings.layers (cell_of s r c) }
    requires mark_value { mark ≡ hint_at s.threshold dog.now t s.layer r c }
    ensures { option_to_list result ≡ found tied dog.now t s r c }
{
    if mark { cell(dog, t, s, r, c) } else { None }
}
