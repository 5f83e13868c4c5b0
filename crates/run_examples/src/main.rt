// The marked examples, rules E1 to E10, run through the public functions. Floats are shown by their bits; what is expected is what the rule says of the example.
#![tactic(auto)]

ghost use Rattle.std.specs.Prelude.{◌≡◌, ◌<◌};

use detect_fit::{Offset, Patch};
use detect_keypoint::Cell;
use detect_refine::Step;
use params::Settings;
use picture::{Shape, Size, Spot};
use std::{fmt, io};

// What is shown for an answer that has no count.
const NOTHING: usize = 999_999;

// A float by its bits, in eight hexadecimal digits.
#[derive(Clone, Copy, Debug, PartialEq, Eq)]
struct Bits(u32);

impl From<f32> for Bits {
    fn from(x: f32) -> Bits {
        Bits(ieee::bits_of(x))
    }
}

impl fmt::Display for Bits {
    fn fmt<W: fmt::Write>(&self, f: &mut fmt::Formatter<W>) -> fmt::Result {
        write!(f, "{:08x}", self.0)
    }
}

// A line: the example, what came out and what is expected, and whether these are not the same.
fn show<T: fmt::Display + PartialEq>(
    rt: &impl Print,
    example: &str,
    got: &T,
    expected: &T,
) -> io::Result<()> {
    let verdict = if got == expected { "" } else { " DIFFERS" };
    println!(rt; "{example}: {got}, expected {expected}{verdict}")
}

// The threshold's bits, or the number of the refusal.
fn threshold(contrast: f64, layers: usize) -> Bits {
    match detect_threshold::extrema_threshold(contrast, layers) {
        Ok(x) => Bits::from(x),
        Err(refusal) => Bits(refusal.number()),
    }
}

// 1 + 2^-12, -(1 + 2^-11) and 2^-24.
const A: f32 = 1.000244140625;

const C: f32 = -1.00048828125;

const SMALL: f32 = 0.000000059604644775390625;

// The examples of a single operation, and of the threshold.
fn singles(rt: &impl Print) -> io::Result<()> {
    let operations = [
        ("floor of -0.5 is -1", ieee_whole::floor(-0.5), -1.0),
        ("floor of -1 is -1", ieee_whole::floor(-1.0), -1.0),
        ("floor of 2.75 is 2", ieee_whole::floor(2.75), 2.0),
        ("0.5 rounded is 0", ieee_whole::round_ties_even(0.5), 0.0),
        ("1.5 rounded is 2", ieee_whole::round_ties_even(1.5), 2.0),
        ("2.5 rounded is 2", ieee_whole::round_ties_even(2.5), 2.0),
        (
            "-1.5 rounded is -2",
            ieee_whole::round_ties_even(-1.5),
            -2.0,
        ),
        (
            "a * a + c, a = 1 + 2^-12, c = -(1 + 2^-11), fused is 2^-24",
            ieee_fused::mul_add(A, A, C),
            SMALL,
        ),
        ("rounded twice it is 0", A * A + C, 0.0),
    ];
    for (example, got, expected) in operations {
        show(rt, example, &Bits::from(got), &Bits::from(expected))?;
    }
    let thresholds = [
        ("contrast 1, layers 1 is 127", 1.0, 1, 127.0),
        ("contrast 0 is 0", 0.0, 1, 0.0),
        ("contrast 0.04, layers 3 is 1", 0.04, 3, 1.0),
        ("contrast 0.04, layers 1 is 5", 0.04, 1, 5.0),
    ];
    for (example, contrast, layers, expected) in thresholds {
        print!(rt; "threshold for ")?;
        show(
            rt,
            example,
            &threshold(contrast, layers),
            &Bits::from(expected),
        )?;
    }
    Ok(())
}

// ---- detection

// Three planes of 11 rows of 11 samples.
const SHAPE: Shape = Shape {
    width: 11,
    height: 11,
    planes: 3,
};

const SETTINGS: Settings = Settings {
    contrast: 0.04,
    edge: 10.0,
    sigma: 1.6,
    layers: 1,
};

// The samples of those planes, each of them `rest`, but for one of the middle plane's.
fn planes(rest: f32, at: usize, value: f32) -> [f32; 363]
    requires { at < 121 }
{
    let mut samples = [rest; 363];
    samples[121 + at] = value;
    samples
}

// How many keypoints detection finds in a stack, at octave 0.
fn detect_in(samples: &[f32], shape: Shape, out: &mut [u32; 10]) -> usize {
    detect::find_extrema(samples, shape, 1, 0, SETTINGS, out).unwrap_or(NOTHING)
}

// How far a cell comes on its way to a keypoint.
#[derive(Clone, Copy, Debug, PartialEq, Eq)]
enum Fate {
    Quiet,
    Beaten,
    Singular,
    Astray,
    Dim,
    Edgy,
    Found,
}

impl fmt::Display for Fate {
    fn fmt<W: fmt::Write>(&self, f: &mut fmt::Formatter<W>) -> fmt::Result {
        f.write_str(match self {
            Fate::Quiet => "no candidate, below the threshold",
            Fate::Beaten => "no candidate, a neighbour beats it",
            Fate::Singular => "a candidate, its determinant is 0",
            Fate::Astray => "a candidate, it does not settle here",
            Fate::Dim => "a candidate, it fails the contrast",
            Fate::Edgy => "a candidate, it fails the edge",
            Fate::Found => "a keypoint",
        })
    }
}

// How far the middle plane's cell (5, 5) comes with the threshold: asked of the very functions that detection calls, one after the other.
fn fate_with(samples: &[f32; 363], threshold: f32) -> Fate {
    if !detect_extrema::is_loud(threshold, picture::at(samples, SHAPE, 1, 5, 5)) {
        return Fate::Quiet;
    }
    if !detect_extrema::is_extremum(samples, SHAPE, 1, 5, 5) {
        return Fate::Beaten;
    }
    let patch = detect_fit::patch_at(samples, SHAPE, 1, 5, 5);
    if detect_fit::det_of(detect_fit::bend_of(patch)) == 0.0 {
        return Fate::Singular;
    }
    match detect_refine::step_of(SHAPE, 1, Cell { p: 1, r: 5, c: 5 }, patch) {
        Step::Lost | Step::Go(_) => Fate::Astray,
        Step::Stay(o) => settled(patch, o),
    }
}

// How far a cell comes that settles with the offset o.
fn settled(patch: Patch, o: Offset) -> Fate {
    if detect_keypoint::is_dim(SETTINGS, detect_keypoint::contrast_of(patch, o)) {
        Fate::Dim
    } else if detect_keypoint::is_edgy(SETTINGS, patch) {
        Fate::Edgy
    } else {
        Fate::Found
    }
}

// A threshold that is refused shows as a cell that went astray.
fn fate_of(samples: &[f32; 363]) -> Fate {
    match detect_threshold::extrema_threshold(SETTINGS.contrast, SETTINGS.layers) {
        Ok(threshold) => fate_with(samples, threshold),
        Err(_) => Fate::Astray,
    }
}

// Whether there is a keypoint where all samples are 0 but for 100 in one cell of the middle plane.
fn is_found_at(at: usize) -> bool
    requires { at < 121 }
{
    let mut out = [0u32; 10];
    detect_in(&planes(0.0, at, 100.0), SHAPE, &mut out) > 0
}

// In how many of the cells such a sample is found.
fn cells_tried() -> usize {
    let mut n = 0;
    for at in 0..121 {
        n += usize::from(is_found_at(at));
    }
    n
}

// The example, and how far the middle cell comes. What is expected stands in the file that the output is held to.
fn show_fate(rt: &impl Print, example: &str, samples: &[f32; 363]) -> io::Result<()> {
    println!(rt; "{example}: {}", fate_of(samples))
}

// Zeros, and one value in the middle, the cell (5, 5): how far it comes, and how many keypoints there are. Answers the first one's words.
fn middle(rt: &impl Print, example: &str, value: f32, expected: usize) -> io::Result<[u32; 10]> {
    let mut out = [0u32; 10];
    let samples = planes(0.0, 60, value);
    show_fate(rt, example, &samples)?;
    show(
        rt,
        " keypoints",
        &detect_in(&samples, SHAPE, &mut out),
        &expected,
    )?;
    Ok(out)
}

fn middle_fields(rt: &impl Print, value: f32) -> io::Result<()> {
    println!(rt; "zeros with {value} in the middle:")?;
    let out = middle(rt, " the middle", value, 1)?;
    show(rt, " x is 5", &Bits(out[0]), &Bits::from(5.0))?;
    show(rt, " y is 5", &Bits(out[1]), &Bits::from(5.0))?;
    show(rt, " octave word is 8388864", &Bits(out[4]), &Bits(8388864))?;
    show(rt, " moves are 0", &Bits(out[9]), &Bits(0))
}

fn detection(rt: &impl Print) -> io::Result<()> {
    let mut out = [0u32; 10];
    let mut narrow = [0.0f32; 330];
    narrow[165] = 100.0;
    let ten = Shape {
        width: 10,
        height: 11,
        planes: 3,
    };
    show(
        rt,
        "width 10, 100 in the middle plane's cell (5, 5)",
        &detect_in(&narrow, ten, &mut out),
        &0,
    )?;
    show(
        rt,
        "11 x 11, 100 in one cell of 121 in turn, found",
        &cells_tried(),
        &1,
    )?;
    show(
        rt,
        " of these in the cell (5, 5)",
        &usize::from(is_found_at(60)),
        &1,
    )?;
    let tens = planes(10.0, 60, 10.0);
    show_fate(rt, "three planes of 10", &tens)?;
    show(rt, " keypoints", &detect_in(&tens, SHAPE, &mut out), &0)?;
    middle_fields(rt, 100.0)?;
    middle_fields(rt, -100.0)?;
    middle(rt, "zeros with 5 in the middle", 5.0, 0)?;
    middle(rt, "zeros with 10 in the middle", 10.0, 0)?;
    middle(rt, "zeros with 11 in the middle", 11.0, 1)?;
    Ok(())
}

// ---- the descriptor

// A 2 × 2 picture has no cell off its edge.
fn described(rt: &impl Print) -> io::Result<()> {
    let picture = [1.0f32, 2.0, 3.0, 4.0];
    let mut values = [7u32; 128];
    let size = Size {
        width: 2,
        height: 2,
    };
    let spot = Spot {
        x: 1.0,
        y: 0.0,
        scale: 1.6,
        angle: 30.0,
    };
    let used = descriptor::compute_descriptor(&picture, size, spot, &mut values);
    show(rt, "a 2 x 2 picture, samples", &used.unwrap_or(NOTHING), &0)?;
    let not_zero = values.iter().filter(|bits| **bits != 0).count();
    show(rt, " values that are not zero", &not_zero, &0)
}

fn main(rt: HostRuntime) -> io::Result<()> {
    singles(&rt)?;
    detection(&rt)?;
    described(&rt)
}
