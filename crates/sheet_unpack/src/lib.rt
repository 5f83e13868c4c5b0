// One record out of a sheet's bytes, of any edition: its fields, whether it keeps the rules, and its words.
#![tactic(auto)]

ghost use Rattle.std.specs.Prelude.{◌≡◌, cond, ◌+◌, ◌-◌, ◌≤◌, eqb, length, get_or, take, drop};
ghost use Rattle.std.specs.List.{list_all};
ghost use Rattle.lists.specs.Pasted.{pasted};
ghost use Rattle.params.specs.Limits.{value_count};
ghost use Rattle.sheet.specs.Pack.{unpack};
ghost use Rattle.sheet.specs.Layout.{record_size, head_size, front_size, head_slots, float_slots};
ghost use Rattle.sheet.specs.Words.{read_words, head_words, float_words, front_words, unknown_of};
ghost use Rattle.sheet.specs.Writes.{frame_for};
ghost use Rattle.sheet_edition.specs.Edition.{layout_for};
ghost use Rattle.sheet_fields.specs.Fields.{head_values, HeadFits, float_values, FloatsFit, any_frame, bytes_front, bytes_words, record_bytes_right};

use sheet::{FRONT_WORDS, Frame, HEAD_WORDS, PLAIN_WORDS, VALUES};
use sheet_edition::Edition;
use sheet_fields::{Floats, Head};

// The whole numbers of a record's bytes.
fn head_in(e: Edition, bytes: &[u8]) -> Head
    requires { length bytes.now ≡ record_size (layout_for e) }
    ensures bytes_value { unpack (head_slots (layout_for e) any_frame) (take head_size bytes.now) ≡ head_values result }
    ensures head_fits { HeadFits (layout_for e) result }
{
    sheet_fields::cut_head(e, sheet_fields::get(bytes, 0, 6))
}

// Its floats.
fn floats_in(e: Edition, bytes: &[u8]) -> Floats
    requires { length bytes.now ≡ record_size (layout_for e) }
    ensures bytes_value { unpack (float_slots (layout_for e)) (take (front_size (layout_for e) - head_size) (drop head_size bytes.now)) ≡ float_values result }
    ensures floats_fit { FloatsFit result }
{
    Floats {
        x: sheet_fields::get(bytes, 6, 4),
        y: sheet_fields::get(bytes, 10, 4),
        size: sheet_fields::get(bytes, 14, 4),
        response: sheet_fields::get(bytes, 18, 4),
        angle: sheet_fields::get(bytes, 22, 4),
    }
}

// Its 128 values, which are its last bytes.
fn values_in(e: Edition, bytes: &[u8]) -> &[u8]
    requires { length bytes.now ≡ record_size (layout_for e) }
    ensures { result.now ≡ drop (front_size (layout_for e)) bytes.now }
{
    &bytes[e.bytes - VALUES..]
}

// Whether these are all zero.
fn values_zero(e: Edition, bytes: &[u8]) -> bool
    requires { length bytes.now ≡ record_size (layout_for e) }
    ensures { result ≡ list_all (λ v. eqb v 0) (drop (front_size (layout_for e)) bytes.now) }
{
    values_in(e, bytes).iter().all(|value| *value == 0)
}

// Whether a record's bytes keep the rules of a sheet of that frame; one that is blank has no value but 0.
pub fn record_right(e: Edition, frame: Frame, bytes: &[u8]) -> bool
    requires { length bytes.now ≡ record_size (layout_for e) }
    ensures { result ≡ record_bytes_right (layout_for e) (frame_for frame) bytes.now }
{
    let head = head_in(e, bytes);
    let whole = sheet_fields::head_right(e, frame, head);
    let floats = sheet_fields::floats_right(e, floats_in(e, bytes));
    (whole & floats) && (head.blank == 0 || values_zero(e, bytes))
}

// The added word: the blank bit, and where there is none 2, unknown, for a record whose 128 bytes are all zero.
fn blank_in(e: Edition, bytes: &[u8]) -> u32
    requires { length bytes.now ≡ record_size (layout_for e) }
    ensures { result ≡ cond (layout_for e).marked (get_or (unpack (head_slots (layout_for e) any_frame) (take head_size bytes.now)) head_words 0)
        (unknown_of (drop (front_size (layout_for e)) bytes.now)) }
{
    if e.marks == 2 {
        return head_in(e, bytes).blank as u32;
    }
    if values_zero(e, bytes) {
        return 2;
    }
    0
}

// Writes a record's 128 bytes as words at the place `to`.
fn take_values(e: Edition, bytes: &[u8], out: &mut [u32], to: usize)
    requires bytes_len { length bytes.now ≡ record_size (layout_for e) }
    requires value_count_in_bounds { to + value_count ≤ length out.old }
    ensures { out.new ≡ pasted to (drop (front_size (layout_for e)) bytes.now) out.old }
{
    for (i, value) in values_in(e, bytes).iter().enumerate() {
        out[to + i] = u32::from(*value);
    }
}

// Writes a record's whole numbers at the place `to`.
fn put_head(e: Edition, out: &mut [u32], to: usize, h: Head)
    requires head_words_in_bounds { to + head_words ≤ length out.old }
    requires head_fits { HeadFits (layout_for e) h }
    ensures { out.new ≡ pasted to (take head_words (head_values h)) out.old }
{
    out[to..to + HEAD_WORDS].copy_from_slice(&[
        h.row as u32,
        h.column as u32,
        h.octave as u32,
        h.layer as u32,
        h.code as u32,
    ]);
}

// Writes a record's floats at the place `to`.
fn put_floats(out: &mut [u32], to: usize, f: Floats)
    requires float_words_in_bounds { to + float_words ≤ length out.old }
    requires floats_fit { FloatsFit f }
    ensures { out.new ≡ pasted to (float_values f) out.old }
{
    out[to..to + (FRONT_WORDS - HEAD_WORDS)].copy_from_slice(&[
        f.x as u32,
        f.y as u32,
        f.size as u32,
        f.response as u32,
        f.angle as u32,
    ]);
}

// Writes both, from a record's bytes.
fn take_front(e: Edition, bytes: &[u8], out: &mut [u32], to: usize)
    requires bytes_len { length bytes.now ≡ record_size (layout_for e) }
    requires front_words_in_bounds { to + front_words ≤ length out.old }
    ensures { out.new ≡ pasted to (bytes_front (layout_for e) bytes.now) out.old }
{
    put_head(e, out, to, head_in(e, bytes));
    put_floats(out, to + HEAD_WORDS, floats_in(e, bytes));
}

// Writes a record's words at the place `to`.
pub fn take_record(e: Edition, bytes: &[u8], out: &mut [u32], to: usize)
    requires bytes_len { length bytes.now ≡ record_size (layout_for e) }
    requires read_words_in_bounds { to + read_words ≤ length out.old }
    ensures { out.new ≡ pasted to (bytes_words (layout_for e) bytes.now) out.old }
{
    let blank = blank_in(e, bytes);
    take_front(e, bytes, out, to);
    take_values(e, bytes, out, to + FRONT_WORDS);
    out[to + PLAIN_WORDS] = blank;
}
