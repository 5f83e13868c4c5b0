// Where a sample lands in the grid, and its eight shares.
#![tactic(auto)]

ghost use Rattle.std.specs.Prelude.{◌≡◌};
ghost use Rattle.descriptor_shares.specs.Sharing.{shares_of, spread_of};
ghost use Rattle.descriptor_shares.specs.Reach.{Near, split_of, Settled, Inside};

// A sample's eight shares: by row, column and slot of the grid, each the nearer one (0) or the next (1).
#[derive(Clone, Copy)]
pub struct Shares {
    pub v000: f32,
    pub v001: f32,
    pub v010: f32,
    pub v011: f32,
    pub v100: f32,
    pub v101: f32,
    pub v110: f32,
    pub v111: f32,
}

// Where a sample's shares go: row and column of the 6 by 6 cells, and the first of its two slots.
#[derive(Clone, Copy)]
pub struct Spread {
    pub row: usize,
    pub col: usize,
    pub slot: usize,
    pub shares: Shares,
}

// A number by the whole number at or below it: that one's digits, and how far the number lies past it.
#[derive(Clone, Copy)]
pub struct Split {
    pub bits: u32,
    pub past: f32,
}

// A sample with its row and its column split.
#[derive(Clone, Copy)]
pub struct Landed {
    pub sample: descriptor_patch::Sample,
    pub row: Split,
    pub col: Split,
}

// `floor_i` of the source and what is left, for a v in -8 to 8. 12582912 is 1.5 * 2^23, in the middle of the numbers from 2^23 to 2^24, among which the f32s are
// the whole numbers. So v + 12582912 is rounded to a whole number, and less 12582912, which is exact, it is v rounded: the floor, or one more. The one is a
// selection and no branch. It is taken off the sum too, whose last bits are then the floor's digits.
pub fn split_of(v: f32) -> Split
    requires { Near v }
    ensures { result ≡ split_of v }
{
    let sum = v + 12582912.0;
    let near = sum - 12582912.0;
    let one = if v < near { 1.0 } else { 0.0 };
    Split {
        bits: f32::to_bits(sum - one),
        past: v - (near - one),
    }
}

// m split by how far it lies past the nearer row, column and slot.
fn shares_of(m: f32, rb: f32, cb: f32, ob: f32) -> Shares
    ensures { result ≡ shares_of m rb cb ob }
{
    let r1 = m * rb;
    let r0 = m - r1;
    let rc11 = r1 * cb;
    let rc10 = r1 - rc11;
    let rc01 = r0 * cb;
    let rc00 = r0 - rc01;
    let v111 = rc11 * ob;
    let v101 = rc10 * ob;
    let v011 = rc01 * ob;
    let v001 = rc00 * ob;
    Shares {
        v000: rc00 - v001,
        v001,
        v010: rc01 - v011,
        v011,
        v100: rc10 - v101,
        v101,
        v110: rc11 - v111,
        v111,
    }
}

// A sample's shares and where they go, in a patch that is turned by `angle`. -1 is row 63 of 64 by its digits, and so 0 after one more.
pub fn spread_of(angle: f32, l: Landed) -> Spread
    requires { Settled angle l }
    ensures { (result ≡ spread_of angle l.sample) × Inside result }
{
    let s = l.sample;
    let r = l.row;
    let c = l.col;
    let m = hal_magnitude::magnitude_in(s.dx, s.dy) * hal::exp_in(s.fall);
    // 8 / 360 slots a degree
    let o = split_of((hal_angle::angle_in(s.dx, s.dy) - angle) * 0.022222223);
    Spread {
        row: ((r.bits + 1) % 64) as usize,
        col: ((c.bits + 1) % 64) as usize,
        slot: (o.bits % 8) as usize,
        shares: shares_of(m, r.past, c.past, o.past),
    }
}
