// The window about a keypoint: the cells that are read, and the test of what they read.
#![tactic(auto)]

ghost use Rattle.std.specs.Prelude.{◌≡◌, ◌+◌, ◌<◌, ◌≤◌, true, length};
ghost use Rattle.params.specs.Limits.{max_side, scale_low, scale_high};
ghost use Rattle.params.specs.Table.{within};
ghost use Rattle.orient_window.specs.Window.{radius_of, falloff_of, window_of};
ghost use Rattle.orient_window.specs.Good.{row_good, window_good};
ghost use Rattle.orient_window.specs.Place.{max_reach, Fits};

use picture::Size;
use samples::Area;

// The cells about the cell (row, col) of a picture that are read: so many rows from the top one, so many columns from the left one.
#[derive(Clone, Copy)]
pub struct Window {
    pub size: Size,
    pub row: usize,
    pub col: usize,
    pub top: usize,
    pub left: usize,
    pub rows: usize,
    pub cols: usize,
    pub falloff: f32,
}

// ---- the window

fn radius_of(scale: f32) -> usize
    requires { within scale_low scale_high scale ≡ true }
    ensures { (result ≡ radius_of scale) × (result ≤ max_reach) }
{
    std::num::truncating_f32_to_u64(ieee_whole::round_ties_even(4.5 * scale)) as usize
}

#[tactic(auto, unfolding(crate::specs::Window::falloff_of))]
fn falloff(scale: f32) -> f32
    ensures { result ≡ falloff_of scale }
{
    let sigma = 1.5 * scale;
    -1.0 / (2.0 * sigma * sigma)
}

// The window about a cell.
#[tactic(auto, unfolding(crate::specs::Window::window_of))]
pub fn window_of(s: Size, row: usize, col: usize, scale: f32) -> Window
    requires { (row < s.height) × ((col < s.width) × ((s.height ≤ max_side) × ((s.width ≤ max_side) × (within scale_low scale_high scale ≡ true)))) }
    ensures { result ≡ window_of s row col scale }
{
    let radius = radius_of(scale);
    let top = picture::first_in(row, radius);
    let left = picture::first_in(col, radius);
    Window {
        size: s,
        row,
        col,
        top,
        left,
        rows: picture::past_in(row, radius, s.height).saturating_sub(top),
        cols: picture::past_in(col, radius, s.width).saturating_sub(left),
        falloff: falloff(scale),
    }
}

// ---- the samples' neighbours

// Row i of the window.
fn row_good(img: &[f32], win: Window, i: usize) -> bool
    requires { Fits (length img.now) win × (i < win.rows) }
    ensures { result ≡ row_good img.now win (win.top + i) }
{
    let y = win.top + i;
    let mut ok = true;
    for j in 0..win.cols {
        ok &= samples::four_good(img, win.size, y, win.left + j);
    }
    ok
}

// Row by row.
fn cells_good(img: &[f32], win: Window) -> bool
    requires { Fits (length img.now) win }
    ensures { result ≡ window_good img.now win }
{
    (0..win.rows).all(|i| row_good(img, win, i))
}

// Whether the four neighbours of each cell are in range. The window with the cells round it holds them all, and its corners beside: where these are good nothing else is asked.
pub fn window_good(img: &[f32], win: Window) -> bool
    requires { Fits (length img.now) win }
    ensures { result ≡ window_good img.now win }
{
    if (win.rows > 0) & (win.cols > 0) {
        let area = Area {
            top: win.top,
            bottom: win.top + win.rows,
            left: win.left,
            right: win.left + win.cols,
        };
        if samples::area_good(img, win.size, area) {
            return true;
        }
    }
    cells_good(img, win)
}
