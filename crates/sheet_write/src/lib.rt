// The sheet's writer, of each edition: frame and records tested, and a sheet's bytes made of them.
#![tactic(auto)]

ghost use Rattle.std.specs.Prelude.{◌≡◌, ℕ, ◌+◌, ◌*◌, ◌<◌, ◌≤◌, length, take, drop, MatchResult};
ghost use mathlib.Core.List.{flat_map};
ghost use Rattle.lists.specs.Pasted.{pasted};
ghost use Rattle.params.specs.Answers.{Refused, refused, told};
ghost use Rattle.sheet.specs.Pack.{Held};
ghost use Rattle.sheet.specs.Layout.{layout_of, header_size, record_size, record_slots};
ghost use Rattle.sheet.specs.Sheet.{parts, all_pass};
ghost use Rattle.sheet.specs.Words.{taken_words, filled};
ghost use Rattle.sheet.specs.Writes.{frame_of, frame_for, records_of, sides_wrong, layers_wrong, layer_right, words_right, write_fault, write_answer, write_out};
ghost use Rattle.sheet_edition.specs.Edition.{layout_for};
ghost use Rattle.sheet_fields.specs.Fields.{any_frame, words_bytes};

use params::{MAX_LAYERS, Refusal};
use sheet::{Frame, HEADER_BYTES, MAX_COUNT};
use sheet_edition::Edition;
use sheet_fields::Header;

// Whether width or height is 0, or above the limit, or above what the edition has bits for.
fn sides_wrong(e: Edition, width: usize, height: usize) -> bool
    ensures { (layers : ℕ) → result ≡ sides_wrong (layout_for e) (frame_of width height layers) }
{
    params::shape_wrong(width, height) | ((e.sides < width as u64) | (e.sides < height as u64))
}

// Whether the frame's layers are out of range.
fn layers_wrong(layers: usize) -> bool
    ensures { (width height : ℕ) → result ≡ layers_wrong (frame_of width height layers) }
{
    (layers == 0) | (layers > MAX_LAYERS)
}

// Whether the layers of the whole records lie from 1 to `layers`.
fn layers_right(e: Edition, layers: usize, words: &[u32]) -> bool
    ensures { result ≡ all_pass (layer_right layers) (records_of (layout_for e) words.now) }
{
    words
        .chunks_exact(e.words)
        .all(|record| layer_right(layers, record))
}

fn layer_right(layers: usize, words: &[u32]) -> bool
    requires { 3 < length words.now }
    ensures { result ≡ layer_right layers words.now }
{
    (1..=layers).contains(&(words[3] as usize))
}

// Whether the whole records keep the rules.
fn records_right(e: Edition, frame: Frame, words: &[u32]) -> bool
    ensures { result ≡ all_pass (words_right (layout_for e) (frame_for frame)) (records_of (layout_for e) words.now) }
{
    words
        .chunks_exact(e.words)
        .all(|record| sheet_pack::record_right(e, frame, record))
}

// The edition of a number, and the frame; or the first fault.
fn accepted(
    edition: u32,
    width: usize,
    height: usize,
    layers: usize,
    words: &[u32],
) -> Result<(Edition, Frame), Refusal>
    ensures { MatchResult result
        (λ p. (write_fault edition (frame_of width height layers) words.now ≡ 0) × (layout_for p.0 ≡ layout_of edition) × (frame_for p.1 ≡ frame_of width height layers))
        (λ r. refused r ≡ Refused (write_fault edition (frame_of width height layers) words.now)) }
{
    let number = u64::from(edition);
    let e = sheet_edition::edition_of(number);
    if sides_wrong(e, width, height) {
        return Err(Refusal::Shape);
    }
    if layers_wrong(layers) {
        return Err(Refusal::Layers);
    }
    if e.number != number {
        return Err(Refusal::Settings);
    }
    if !layers_right(e, layers, words) {
        return Err(Refusal::Layers);
    }
    let frame = Frame {
        width: width as u64,
        height: height as u64,
        layers: layers as u64,
    };
    if (words.len() % e.words != 0)
        | ((words.len() / e.words > MAX_COUNT) | !records_right(e, frame, words))
    {
        return Err(Refusal::Fields);
    }
    Ok((e, frame))
}

// Writes the first n records behind the header.
fn put_records(e: Edition, words: &[u32], n: usize, out: &mut [u8])
    requires n_words { taken_words (layout_for e) * n ≤ length words.now }
    requires n_in_bounds { header_size + record_size (layout_for e) * n ≤ length out.old }
    requires by_index { (i : ℕ) → i < n → Held (record_slots (layout_for e) any_frame) (filled (take (taken_words (layout_for e)) (drop (taken_words (layout_for e) * i) words.now))) }
    ensures { out.new ≡ pasted header_size (flat_map (words_bytes (layout_for e)) (parts (taken_words (layout_for e)) n words.now)) out.old }
{
    for i in 0..n {
        let from = e.words * i;
        let to = from + e.words;
        sheet_pack::put_record(e, &words[from..to], out, HEADER_BYTES + e.bytes * i);
    }
}

// The writer: the words of whole records, of a frame of that width, height and layers, as the bytes of a sheet of an edition.
pub fn write_sheet(
    edition: u32,
    width: usize,
    height: usize,
    layers: usize,
    words: &[u32],
    out: &mut [u8],
) -> Result<usize, Refusal>
    ensures { (told result ≡ write_answer edition (frame_of width height layers) words.now (length out.old))
        × (out.new ≡ write_out edition (frame_of width height layers) words.now out.old) }
{
    let (e, frame) = accepted(edition, width, height, layers, words)?;
    let n = words.len() / e.words;
    let size = HEADER_BYTES + e.bytes * n;
    if out.len() < size {
        return Err(Refusal::Room(size));
    }
    let header = Header {
        edition: e.number,
        width: frame.width - 1,
        height: frame.height - 1,
        layers: frame.layers,
        count: n as u64,
        rule: 0,
        zero: 0,
    };
    sheet_fields::put(out, 0, sheet_fields::header_number(e, header), HEADER_BYTES);
    put_records(e, words, n, out);
    Ok(size)
}
