// The C library: one thin function for each entry, and nothing else; `bargeclover_c` exports each to C. `include/bargeclover.h` says the same in C's words.
// Where a parameter or an answer stands for a float and is a u32 (or a u64), it is the float's bits, and every pattern is taken;
// a not-a-number answered has the bits 2143289344.
#![tactic(auto)]

ghost use Rattle.std.specs.Prelude.{◌≡◌, length};
ghost use Rattle.std.specs.Float.Ieee.{of_bits};
ghost use Rattle.std.specs.Float.{binary64};
ghost use Rattle.ieee.specs.F32.{f32, bits_of, fused, root_of, narrowed, floor_of, rounded, to_i32};
ghost use Rattle.params.specs.Answers.{number_of, count_of};
ghost use Rattle.detect_threshold.specs.Threshold.{threshold_answer, threshold_number, threshold_value};
ghost use Rattle.detect.specs.Entry.{extrema_answer, extrema_out};
ghost use Rattle.orient.specs.Entry.{orient_answer, orient_out};
ghost use Rattle.descriptor_inputs.specs.Inputs.{inputs_of};
ghost use Rattle.descriptor.specs.Entry.{number_of as described_number, count_of as described_count, used_of, described_of, described_out};
ghost use Rattle.thin.specs.Entry.{thin_answer, thin_out};
ghost use Rattle.sheet.specs.Writes.{frame_of, write_answer, write_out};
ghost use Rattle.sheet.specs.Reads.{read_answer, read_out};
ghost use Rattle.record.specs.Make.{make_number, make_left};
ghost use Rattle.audit_rule.specs.Entry.{check_answer};
ghost use Rattle.audit_verdict.specs.Verdict.{number_of as check_number, verdict_of, place_of, field_of};
ghost use Rattle.words.specs.Keypoint.{keypoint_in};
ghost use Rattle.words.specs.Oriented.{oriented_in};
ghost use Rattle.bargeclover.specs.Given.{settings_of, shape_of, size_of, spot_of};
ghost use Rattle.words.specs.Inputs.{inputs_number, inputs_left};
ghost use Rattle.hal.specs.Exp.{exp2_of, exp_of};
ghost use Rattle.hal_turn.specs.Turn.{sin_of, cos_of};
ghost use Rattle.hal_angle.specs.Angle.{angle_of};
ghost use Rattle.hal_magnitude.specs.Magnitude.{magnitude_of};

use params::Settings;
use picture::{Shape, Size, Spot};

// ---- routines

pub fn bargeclover_exp2(x: u32) -> u32
    ensures { result ≡ bits_of (exp2_of (f32 x)) }
{
    ieee::bits_of(hal::exp2(ieee::of_bits(x)))
}

pub fn bargeclover_exp(x: u32) -> u32
    ensures { result ≡ bits_of (exp_of (f32 x)) }
{
    ieee::bits_of(hal::exp(ieee::of_bits(x)))
}

pub fn bargeclover_sin(degrees: u32) -> u32
    ensures { result ≡ bits_of (sin_of (f32 degrees)) }
{
    ieee::bits_of(hal_turn::sin(ieee::of_bits(degrees)))
}

pub fn bargeclover_cos(degrees: u32) -> u32
    ensures { result ≡ bits_of (cos_of (f32 degrees)) }
{
    ieee::bits_of(hal_turn::cos(ieee::of_bits(degrees)))
}

pub fn bargeclover_angle(dx: u32, dy: u32) -> u32
    ensures { result ≡ bits_of (angle_of (f32 dx) (f32 dy)) }
{
    ieee::bits_of(hal_angle::angle(ieee::of_bits(dx), ieee::of_bits(dy)))
}

pub fn bargeclover_magnitude(dx: u32, dy: u32) -> u32
    ensures { result ≡ bits_of (magnitude_of (f32 dx) (f32 dy)) }
{
    ieee::bits_of(hal_magnitude::magnitude(ieee::of_bits(dx), ieee::of_bits(dy)))
}

// ---- single operations

pub fn bargeclover_fma(a: u32, b: u32, c: u32) -> u32
    ensures { result ≡ bits_of (fused (f32 a) (f32 b) (f32 c)) }
{
    ieee::bits_of(ieee_fused::mul_add(ieee::of_bits(a), ieee::of_bits(b), ieee::of_bits(c)))
}

pub fn bargeclover_sqrt(x: u32) -> u32
    ensures { result ≡ bits_of (root_of (f32 x)) }
{
    ieee::bits_of(ieee_root::sqrt(ieee::of_bits(x)))
}

pub fn bargeclover_narrow(x: u64) -> u32
    ensures { result ≡ bits_of (narrowed (of_bits binary64 x)) }
{
    ieee::bits_of(ieee_fused::narrow(ieee::of_bits64(x)))
}

pub fn bargeclover_floor(x: u32) -> u32
    ensures { result ≡ bits_of (floor_of (f32 x)) }
{
    ieee::bits_of(ieee_whole::floor(ieee::of_bits(x)))
}

pub fn bargeclover_round(x: u32) -> u32
    ensures { result ≡ bits_of (rounded (f32 x)) }
{
    ieee::bits_of(ieee_whole::round_ties_even(ieee::of_bits(x)))
}

pub fn bargeclover_to_i32(x: u32) -> i32
    ensures { result ≡ to_i32 (f32 x) }
{
    ieee_whole::to_i32(ieee::of_bits(x))
}

// ---- the threshold

pub fn bargeclover_threshold(contrast: f64, layers: usize, threshold_bits: &mut u32) -> u32
    ensures value { result ≡ threshold_number (threshold_answer contrast layers) }
    ensures threshold_bits_after { threshold_bits.new ≡ bits_of (threshold_value (threshold_answer contrast layers)) }
{
    let t = detect_threshold::extrema_threshold(contrast, layers);
    *threshold_bits = ieee::bits_of(detect_threshold::threshold_value(t));
    detect_threshold::threshold_number(t)
}

// ---- detection

pub fn bargeclover_find_extrema(
    dog: &[f32],
    width: usize,
    height: usize,
    planes: usize,
    layer: usize,
    octave: u32,
    layers: usize,
    contrast: f64,
    edge: f64,
    sigma: f64,
    out: &mut [u32],
    count: &mut usize,
) -> u32
    ensures value { result ≡ number_of (extrema_answer dog.now (shape_of width height planes) layer octave (settings_of contrast edge sigma layers) (length out.old)) }
    ensures count_after { count.new ≡ count_of (extrema_answer dog.now (shape_of width height planes) layer octave (settings_of contrast edge sigma layers) (length out.old)) }
    ensures out_after { out.new ≡ extrema_out dog.now (shape_of width height planes) layer octave (settings_of contrast edge sigma layers) out.old }
{
    let s = Settings {
        contrast,
        edge,
        sigma,
        layers,
    };
    let t = Shape {
        width,
        height,
        planes,
    };
    let a = detect::find_extrema(dog, t, layer, octave, s, out);
    *count = params::count_of(a);
    params::number_of(a)
}

// ---- orientation

pub fn bargeclover_assign_orientations(
    img: &[f32],
    width: usize,
    height: usize,
    keypoint: &[u32],
    out: &mut [u32],
    count: &mut usize,
    samples: &mut usize,
) -> u32
    ensures value { result ≡ number_of (orient_answer img.now (size_of width height) (keypoint_in keypoint.now) (length out.old)).answer }
    ensures count_after { count.new ≡ count_of (orient_answer img.now (size_of width height) (keypoint_in keypoint.now) (length out.old)).answer }
    ensures samples_after { samples.new ≡ (orient_answer img.now (size_of width height) (keypoint_in keypoint.now) (length out.old)).samples }
    ensures out_after { out.new ≡ orient_out img.now (size_of width height) (keypoint_in keypoint.now) out.old }
{
    let k = words::keypoint_in(keypoint);
    let s = Size { width, height };
    match orient::assign_orientations(img, s, k, out) {
        Ok(oriented) => {
            *count = oriented.count;
            *samples = oriented.samples;
            0
        }
        Err(refusal) => {
            *count = refusal.count();
            *samples = 0;
            refusal.number()
        }
    }
}

// ---- the descriptor's inputs

pub fn bargeclover_descriptor_inputs(oriented: &[u32], octave: i32, out: &mut [u32]) -> u32
    ensures value { result ≡ inputs_number (inputs_of (oriented_in oriented.now) octave) (length out.old) }
    ensures out_after { out.new ≡ inputs_left (inputs_of (oriented_in oriented.now) octave) out.old }
{
    let inputs = descriptor_inputs::descriptor_inputs(words::oriented_in(oriented), octave);
    params::number_of(words::give_inputs(inputs, out))
}

// ---- the descriptor

pub fn bargeclover_compute_descriptor(
    img: &[f32],
    width: usize,
    height: usize,
    x: f32,
    y: f32,
    scale: f32,
    angle: f32,
    out: &mut [u32],
    count: &mut usize,
    samples: &mut usize,
) -> u32
    ensures value { result ≡ described_number (described_of img.now (size_of width height) (spot_of x y scale angle) (length out.old)) }
    ensures count_after { count.new ≡ described_count (described_of img.now (size_of width height) (spot_of x y scale angle) (length out.old)) }
    ensures samples_after { samples.new ≡ used_of (described_of img.now (size_of width height) (spot_of x y scale angle) (length out.old)) }
    ensures out_after { out.new ≡ described_out img.now (size_of width height) (spot_of x y scale angle) out.old }
{
    let s = Size { width, height };
    let p = Spot { x, y, scale, angle };
    let a = descriptor::compute_descriptor(img, s, p, out);
    *count = descriptor::count_of(a);
    *samples = descriptor::used_of(a);
    descriptor::number_of(a)
}

// ---- even cover

pub fn bargeclover_thin(
    width: usize,
    height: usize,
    words: &[u32],
    quota: usize,
    depth: u32,
    out: &mut [u32],
    count: &mut usize,
) -> u32
    ensures value { result ≡ number_of (thin_answer words.now width height quota depth (length out.old)) }
    ensures count_after { count.new ≡ count_of (thin_answer words.now width height quota depth (length out.old)) }
    ensures out_after { out.new ≡ thin_out words.now width height quota depth out.old }
{
    let a = thin::thin_frame(width, height, words, quota, depth, out);
    *count = params::count_of(a);
    params::number_of(a)
}

// ---- the sheet

pub fn bargeclover_make_record(
    keypoint: &[u32],
    oriented: &[u32],
    values: &[u32],
    samples: usize,
    out: &mut [u32],
) -> u32
    ensures value { result ≡ make_number (keypoint_in keypoint.now) (oriented_in oriented.now) values.now samples (length out.old) }
    ensures out_after { out.new ≡ make_left (keypoint_in keypoint.now) (oriented_in oriented.now) values.now samples out.old }
{
    params::number_of(record::make_record(keypoint, oriented, values, samples, out))
}

pub fn bargeclover_write_sheet(
    edition: u32,
    width: usize,
    height: usize,
    layers: usize,
    words: &[u32],
    out: &mut [u8],
    count: &mut usize,
) -> u32
    ensures value { result ≡ number_of (write_answer edition (frame_of width height layers) words.now (length out.old)) }
    ensures count_after { count.new ≡ count_of (write_answer edition (frame_of width height layers) words.now (length out.old)) }
    ensures out_after { out.new ≡ write_out edition (frame_of width height layers) words.now out.old }
{
    let a = sheet_write::write_sheet(edition, width, height, layers, words, out);
    *count = params::count_of(a);
    params::number_of(a)
}

pub fn bargeclover_read_sheet(
    sheet: &[u8],
    out: &mut [u32],
    count: &mut usize,
    edition: &mut u32,
    width: &mut usize,
    height: &mut usize,
    layers: &mut usize,
) -> u32
    ensures value { result ≡ number_of (read_answer sheet.now (length out.old)).answer }
    ensures count_after { count.new ≡ count_of (read_answer sheet.now (length out.old)).answer }
    ensures edition_after { edition.new ≡ (read_answer sheet.now (length out.old)).edition }
    ensures width_after { width.new ≡ (read_answer sheet.now (length out.old)).width }
    ensures height_after { height.new ≡ (read_answer sheet.now (length out.old)).height }
    ensures layers_after { layers.new ≡ (read_answer sheet.now (length out.old)).layers }
    ensures out_after { out.new ≡ read_out sheet.now out.old }
{
    match sheet_read::read_sheet(sheet, out) {
        Ok(heading) => {
            *count = heading.count;
            *edition = heading.edition;
            *width = heading.width;
            *height = heading.height;
            *layers = heading.layers;
            0
        }
        Err(refusal) => {
            *count = refusal.count();
            *edition = 0;
            *width = 0;
            *height = 0;
            *layers = 0;
            refusal.number()
        }
    }
}

// ---- a sheet checked against the planes that it was made of

pub fn bargeclover_check_sheet(
    dog: &[f32],
    gauss: &[f32],
    width: usize,
    height: usize,
    planes: usize,
    octave: u32,
    layers: usize,
    contrast: f64,
    edge: f64,
    sigma: f64,
    wide: usize,
    high: usize,
    sheet: &[u8],
    verdict: &mut u32,
    place: &mut usize,
    field: &mut u32,
) -> u32
    ensures value { result ≡ check_number (check_answer dog.now gauss.now (shape_of width height planes) octave (settings_of contrast edge sigma layers) (size_of wide high) sheet.now) }
    ensures verdict_after { verdict.new ≡ verdict_of (check_answer dog.now gauss.now (shape_of width height planes) octave (settings_of contrast edge sigma layers) (size_of wide high) sheet.now) }
    ensures place_after { place.new ≡ place_of (check_answer dog.now gauss.now (shape_of width height planes) octave (settings_of contrast edge sigma layers) (size_of wide high) sheet.now) }
    ensures field_after { field.new ≡ field_of (check_answer dog.now gauss.now (shape_of width height planes) octave (settings_of contrast edge sigma layers) (size_of wide high) sheet.now) }
{
    let s = Settings {
        contrast,
        edge,
        sigma,
        layers,
    };
    let t = Shape {
        width,
        height,
        planes,
    };
    let base = Size {
        width: wide,
        height: high,
    };
    let a = audit::check_sheet(dog, gauss, t, octave, s, base, sheet);
    *verdict = audit_verdict::verdict_of(a);
    *place = audit_verdict::place_of(a);
    *field = audit_verdict::field_of(a);
    params::number_of(a)
}
