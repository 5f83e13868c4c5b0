// The histogram of 6 by 6 cells of 10 slots, and what a sample adds to it: `scatter` of the source, a sample at a time.
#![tactic(auto)]

ghost use Rattle.std.specs.Prelude.{◌≡◌, ◌+◌, ◌<◌, leb};
ghost use Rattle.descriptor_values.specs.Places.{slots, places};
ghost use Rattle.descriptor_shares.specs.Sharing.{spread_of};
ghost use Rattle.descriptor_shares.specs.Reach.{Settled, Inside};
ghost use Rattle.descriptor_grid.specs.Grid.{pair_at, when, scattered};

use descriptor_shares::{Landed, Spread};
use descriptor_values::{CELLS, SLOTS};

// The places of a row of cells.
const ROW: usize = CELLS * SLOTS;

// The four shares that go to one row of the grid: by column and slot.
#[derive(Clone, Copy)]
pub struct RowShares {
    pub v00: f32,
    pub v01: f32,
    pub v10: f32,
    pub v11: f32,
}

// Two slots side by side.
fn pair_at(hist: &mut [f32; 360], i: usize, a: f32, b: f32)
    requires { i + 1 < places }
    ensures { hist.new ≡ pair_at hist.old i a b }
{
    hist[i] += a;
    hist[i + 1] += b;
}

// The two pairs of a row of the grid: a column on lies a cell's slots on. Those of the outer ring's columns are left out.
fn row_at(hist: &mut [f32; 360], i: usize, col: usize, s: RowShares)
    requires { i + slots + 1 < places }
    ensures { hist.new ≡ when (leb col 3) (when (leb 1 col) hist.old i s.v00 s.v01) (i + slots) s.v10 s.v11 }
{
    if 1 <= col {
        pair_at(hist, i, s.v00, s.v01);
    }
    if col <= 3 {
        pair_at(hist, i + SLOTS, s.v10, s.v11);
    }
}

// The eight shares in the source's order; a row on lies the places of a row on. Pairs of the outer ring, which no value is made of, are left out: first by row, then by column.
fn scatter(hist: &mut [f32; 360], p: Spread)
    requires { Inside p }
    ensures { hist.new ≡ scattered hist.old p }
{
    let s = p.shares;
    let i = (p.row * CELLS + p.col) * SLOTS + p.slot;
    if 1 <= p.row {
        let here = RowShares {
            v00: s.v000,
            v01: s.v001,
            v10: s.v010,
            v11: s.v011,
        };
        row_at(hist, i, p.col, here);
    }
    if p.row <= 3 {
        let next = RowShares {
            v00: s.v100,
            v01: s.v101,
            v10: s.v110,
            v11: s.v111,
        };
        row_at(hist, i + ROW, p.col, next);
    }
}

// A sample added to the histogram.
pub fn add(hist: &mut [f32; 360], angle: f32, l: Landed)
    requires { Settled angle l }
    ensures { hist.new ≡ scattered hist.old (spread_of angle l.sample) }
{
    scatter(hist, descriptor_shares::spread_of(angle, l));
}
