// A number and its bytes; and the fields of a sheet's header, and of one record before its values, of any edition: as one number, cut out of it again, and tested.
#![tactic(auto)]

ghost use Rattle.std.specs.Prelude.{◌≡◌, ◌+◌, ◌*◌, ◌^◌, ◌<◌, ◌≤◌, length, take, drop};
ghost use Rattle.lists.specs.Pasted.{pasted};
ghost use Rattle.sheet.specs.Pack.{bytes, number, value, fields, sound};
ghost use Rattle.sheet.specs.Layout.{header_size, header_slots, head_size, head_slots, float_slots};
ghost use Rattle.sheet.specs.Sheet.{header_in};
ghost use Rattle.sheet.specs.Writes.{frame_for};
ghost use Rattle.sheet.specs.Reads.{layout_in};
ghost use Rattle.sheet_edition.specs.Edition.{layout_for};
ghost use Rattle.sheet_fields.specs.Fields.{header_list, HeaderFits, head_values, HeadFits, float_values, any_frame};

use params::MAX_LAYERS;
use sheet::{Frame, HEADER_BYTES, MAX_COUNT};
use sheet_edition::Edition;

// The fields of a header, width and height less 1, the rule less 1, and its zero bits.
#[derive(Clone, Copy)]
pub struct Header {
    pub edition: u64,
    pub width: u64,
    pub height: u64,
    pub layers: u64,
    pub count: u64,
    pub rule: u64,
    pub zero: u64,
}

// The whole numbers of a record, its blank bit, and its zero bits.
#[derive(Clone, Copy)]
pub struct Head {
    pub row: u64,
    pub column: u64,
    pub octave: u64,
    pub layer: u64,
    pub code: u64,
    pub blank: u64,
    pub zero: u64,
}

// The floats of a record, by their bits.
#[derive(Clone, Copy)]
pub struct Floats {
    pub x: u64,
    pub y: u64,
    pub size: u64,
    pub response: u64,
    pub angle: u64,
}

// Writes the last k bytes of n at the place `at`, the most significant first.
pub fn put(out: &mut [u8], at: usize, n: u64, k: usize)
    requires { at + k ≤ length out.old }
    ensures { out.new ≡ pasted at (bytes k n) out.old }
{
    let mut m = n;
    for i in (0..k).rev() {
        out[at + i] = (m % 256) as u8;
        m /= 256;
    }
}

// The k bytes at `at` as a number, the first most significant.
pub fn get(bytes: &[u8], at: usize, k: usize) -> u64
    requires { (at + k ≤ length bytes.now) × (k ≤ 8) }
    ensures { result ≡ value (take k (drop at bytes.now)) }
{
    let mut acc = 0;
    for b in &bytes[at..at + k] {
        acc = acc * 256 + u64::from(*b);
    }
    acc
}

// Puts a field behind those before it; `room` is the power of two that its bits make.
fn behind(before: u64, room: u64, v: u64) -> u64
    requires { before * room + v < 2 ^ 64 }
    ensures { result ≡ before * room + v }
{
    before * room + v
}

// The header's 64 bits as one number: the edition's 4 bits, width − 1 and height − 1, layers 4, count 20, the rule bit where there is one, and the zero bits.
pub fn header_number(e: Edition, h: Header) -> u64
    requires { HeaderFits (layout_for e) h }
    ensures { result ≡ number (header_slots (layout_for e)) (header_list h) }
{
    let wide = behind(h.edition, e.sides, h.width);
    let high = behind(wide, e.sides, h.height);
    let layers = behind(high, 16, h.layers);
    let count = behind(layers, 1048576, h.count);
    let rule = behind(count, e.marks, h.rule);
    behind(rule, e.spare * 16, h.zero)
}

// The header's fields, the last one first.
pub fn cut_header(e: Edition, n: u64) -> Header
    ensures n_value { fields (header_slots (layout_for e)) n ≡ header_list result }
    ensures header_fits { HeaderFits (layout_for e) result }
{
    let spare = e.spare * 16;
    let rule = n / spare;
    let count = rule / e.marks;
    let layers = count / 1048576;
    let high = layers / 16;
    let wide = high / e.sides;
    Header {
        edition: wide / e.sides,
        width: wide % e.sides,
        height: high % e.sides,
        layers: layers % 16,
        count: count % 1048576,
        rule: rule % e.marks,
        zero: n % spare,
    }
}

// The edition that a sheet's bytes state.
pub fn edition_in(sheet: &[u8]) -> Edition
    requires { header_size ≤ length sheet.now }
    ensures { layout_for result ≡ layout_in sheet.now }
{
    sheet_edition::edition_of(get(sheet, 0, HEADER_BYTES) / 0x1000_0000_0000_0000)
}

// The header's fields, of a sheet's bytes.
pub fn header_in(e: Edition, sheet: &[u8]) -> Header
    requires { header_size ≤ length sheet.now }
    ensures sheet_value { header_in (layout_for e) sheet.now ≡ header_list result }
    ensures header_fits { HeaderFits (layout_for e) result }
{
    cut_header(e, get(sheet, 0, HEADER_BYTES))
}

// Whether a header's fields keep the rules. There is one rule, so that its bit is 0.
pub fn header_right(e: Edition, h: Header) -> bool
    ensures { result ≡ sound (header_slots (layout_for e)) (header_list h) }
{
    (h.edition == e.number)
        & (h.width < e.sides)
        & (h.height < e.sides)
        & (1..=MAX_LAYERS as u64).contains(&h.layers)
        & (h.count <= MAX_COUNT as u64)
        & (h.rule == 0)
        & (h.zero == 0)
}

// The 48 bits of a record's whole numbers as one number: row, column, octave 4 bits, layer 4, code 8, the blank bit where there is one, and the zero bits.
pub fn head_number(e: Edition, h: Head) -> u64
    requires { HeadFits (layout_for e) h }
    ensures { result ≡ number (head_slots (layout_for e) any_frame) (head_values h) }
{
    let column = behind(h.row, e.sides, h.column);
    let octave = behind(column, 16, h.octave);
    let layer = behind(octave, 16, h.layer);
    let code = behind(layer, 256, h.code);
    let blank = behind(code, e.marks, h.blank);
    behind(blank, e.spare, h.zero)
}

// A record's whole numbers, the last one first.
pub fn cut_head(e: Edition, n: u64) -> Head
    requires { n < 2 ^ (8 * head_size) }
    ensures n_value { fields (head_slots (layout_for e) any_frame) n ≡ head_values result }
    ensures head_fits { HeadFits (layout_for e) result }
{
    let blank = n / e.spare;
    let code = blank / e.marks;
    let layer = code / 256;
    let octave = layer / 16;
    let column = octave / 16;
    Head {
        row: column / e.sides,
        column: column % e.sides,
        octave: octave % 16,
        layer: layer % 16,
        code: code % 256,
        blank: blank % e.marks,
        zero: n % e.spare,
    }
}

// Whether a record's whole numbers keep the rules of a sheet of that frame; that the blank bit says no untruth of the values is asked elsewhere.
pub fn head_right(e: Edition, frame: Frame, head: Head) -> bool
    ensures { result ≡ sound (head_slots (layout_for e) (frame_for frame)) (head_values head) }
{
    (head.row < frame.height)
        & (head.column < frame.width)
        & (head.octave <= 15)
        & (1..=frame.layers).contains(&head.layer)
        & (head.code <= 255)
        & (head.blank < e.marks)
        & (head.zero == 0)
}

// As bits of an f32 whose sign bit is clear, the order of which is that of values: the largest that is finite, and the largest below 360. The least above 0 is 1.
const LARGEST_FINITE: u64 = 0x7f7f_ffff;

const LARGEST_ANGLE: u64 = 0x43b3_ffff;

// Whether a record's floats do: finite with sign bit clear, size above 0, angle below 360.
pub fn floats_right(e: Edition, f: Floats) -> bool
    ensures { result ≡ sound (float_slots (layout_for e)) (float_values f) }
{
    (f.x <= LARGEST_FINITE)
        & (f.y <= LARGEST_FINITE)
        & (1..=LARGEST_FINITE).contains(&f.size)
        & (f.response <= LARGEST_FINITE)
        & (f.angle <= LARGEST_ANGLE)
}
