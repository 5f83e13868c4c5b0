// One record into the bytes of a sheet, of any edition: its words tested, and packed most significant bit first.
#![tactic(auto)]

ghost use Rattle.std.specs.Prelude.{◌≡◌, ◌||◌, ℕ, ◌+◌, ◌*◌, ◌<◌, ◌≤◌, eqb, leb, length, take, drop, get_or};
ghost use mathlib.Core.List.{◌∷◌, [], ◌++◌, flat_map};
ghost use Rattle.std.specs.List.{list_all};
ghost use Rattle.lists.specs.Pasted.{pasted};
ghost use Rattle.params.specs.Limits.{value_count};
ghost use Rattle.sheet.specs.Pack.{Held, bytes};
ghost use Rattle.sheet.specs.Layout.{record_size, record_slots};
ghost use Rattle.sheet.specs.Words.{plain_words, taken_words, head_words, float_words, front_words, filled};
ghost use Rattle.sheet.specs.Writes.{frame_for, words_right};
ghost use Rattle.sheet_edition.specs.Edition.{layout_for};
ghost use Rattle.sheet_fields.specs.Fields.{head_values, float_values, any_frame, words_bytes};

use sheet::{FRONT_WORDS, Frame, HEAD_WORDS, PLAIN_WORDS, VALUES};
use sheet_edition::Edition;
use sheet_fields::{Floats, Head};

// Writes a record's 128 values at the place `at`.
fn put_values(words: &[u32], out: &mut [u8], at: usize)
    requires plain_words_in_bounds { plain_words ≤ length words.now }
    requires value_count_in_bounds { at + value_count ≤ length out.old }
    requires by_index { (i : ℕ) → i < value_count → get_or words.now (front_words + i) 0 < 256 }
    ensures { out.new ≡ pasted at (take value_count (drop front_words words.now)) out.old }
{
    for (i, value) in words[FRONT_WORDS..PLAIN_WORDS].iter().enumerate() {
        out[at + i] = *value as u8;
    }
}

// Writes a record's five floats, four bytes each, at the place `at`.
fn put_floats(words: &[u32], out: &mut [u8], at: usize)
    requires plain_words_in_bounds { plain_words ≤ length words.now }
    requires float_words_in_bounds { at + 4 * float_words ≤ length out.old }
    ensures { out.new ≡ pasted at (flat_map (bytes 4) (take float_words (drop head_words words.now))) out.old }
{
    for (i, float) in words[HEAD_WORDS..FRONT_WORDS].iter().enumerate() {
        sheet_fields::put(out, at + 4 * i, u64::from(*float), 4);
    }
}

// The blank word, 0 where the words end before it.
fn blank_of(words: &[u32]) -> u64
    ensures { result ≡ get_or words.now plain_words 0 }
{
    u64::from(words.get(PLAIN_WORDS).copied().unwrap_or(0))
}

// A record's whole numbers and its blank word.
fn head_of(words: &[u32]) -> Head
    requires { plain_words ≤ length words.now }
    ensures { head_values result ≡ take head_words words.now ++ (get_or words.now plain_words 0 ∷ 0 ∷ []) }
{
    Head {
        row: u64::from(words[0]),
        column: u64::from(words[1]),
        octave: u64::from(words[2]),
        layer: u64::from(words[3]),
        code: u64::from(words[4]),
        blank: blank_of(words),
        zero: 0,
    }
}

// A record's floats.
fn floats_of(words: &[u32]) -> Floats
    requires { plain_words ≤ length words.now }
    ensures { float_values result ≡ take float_words (drop head_words words.now) }
{
    Floats {
        x: u64::from(words[5]),
        y: u64::from(words[6]),
        size: u64::from(words[7]),
        response: u64::from(words[8]),
        angle: u64::from(words[9]),
    }
}

// Writes a record's bytes at the place `at`: 6 of whole numbers, the floats', and the 128 values, which are the last.
pub fn put_record(e: Edition, words: &[u32], out: &mut [u8], at: usize)
    requires words_len { length words.now ≡ taken_words (layout_for e) }
    requires e_in_bounds { at + record_size (layout_for e) ≤ length out.old }
    requires held { Held (record_slots (layout_for e) any_frame) (filled words.now) }
    ensures { out.new ≡ pasted at (words_bytes (layout_for e) words.now) out.old }
{
    let head = sheet_fields::head_number(e, head_of(words));
    sheet_fields::put(out, at, head, 6);
    put_floats(words, out, at + 6);
    put_values(words, out, at + (e.bytes - VALUES));
}

// Whether a record's 128 values are bytes.
fn values_right(words: &[u32]) -> bool
    requires { plain_words ≤ length words.now }
    ensures { result ≡ list_all (λ v. leb v 255) (take value_count (drop front_words words.now)) }
{
    words[FRONT_WORDS..PLAIN_WORDS]
        .iter()
        .all(|value| *value <= 255)
}

// Whether they are all 0.
fn values_zero(words: &[u32]) -> bool
    requires { plain_words ≤ length words.now }
    ensures { result ≡ list_all (λ v. eqb v 0) (take value_count (drop front_words words.now)) }
{
    words[FRONT_WORDS..PLAIN_WORDS]
        .iter()
        .all(|value| *value == 0)
}

// Whether a record that is blank has no value but 0.
fn blank_right(words: &[u32]) -> bool
    requires { plain_words ≤ length words.now }
    ensures { result ≡ (eqb (get_or words.now plain_words 0) 0 || list_all (λ v. eqb v 0) (take value_count (drop front_words words.now))) }
{
    blank_of(words) == 0 || values_zero(words)
}

// Whether a record keeps the rules of a sheet of that frame.
pub fn record_right(e: Edition, frame: Frame, words: &[u32]) -> bool
    requires { length words.now ≡ taken_words (layout_for e) }
    ensures { result ≡ words_right (layout_for e) (frame_for frame) words.now }
{
    sheet_fields::head_right(e, frame, head_of(words))
        & sheet_fields::floats_right(e, floats_of(words))
        & values_right(words)
        & blank_right(words)
}
