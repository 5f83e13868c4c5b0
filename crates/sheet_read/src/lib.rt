// The sheet's reader, of each edition: the bytes of a sheet tested against every rule, and its records given as words.
#![tactic(auto)]

ghost use Rattle.std.specs.Prelude.{◌≡◌, ◌+◌, ◌*◌, ◌/◌, ◌≤◌, length, drop};
ghost use mathlib.Core.List.{flat_map};
ghost use Rattle.lists.specs.Pasted.{pasted};
ghost use Rattle.sheet.specs.Layout.{header_size, record_size};
ghost use Rattle.sheet.specs.Sheet.{parts, all_pass, bytes_right};
ghost use Rattle.sheet.specs.Words.{read_words};
ghost use Rattle.sheet.specs.Writes.{frame_for};
ghost use Rattle.sheet.specs.Reads.{layout_in, read_told, read_answer, read_out};
ghost use Rattle.sheet_edition.specs.Edition.{layout_for};
ghost use Rattle.sheet_fields.specs.Fields.{bytes_words, record_bytes_right};

use params::Refusal;
use sheet::{Frame, HEADER_BYTES, Heading, READ_WORDS};
use sheet_edition::Edition;

// Whether the whole records of the bytes behind a header keep the rules of a sheet of that frame.
fn records_right(e: Edition, frame: Frame, body: &[u8]) -> bool
    ensures { result ≡ all_pass (record_bytes_right (layout_for e) (frame_for frame)) (parts (record_size (layout_for e)) (length body.now / record_size (layout_for e)) body.now) }
{
    body.chunks_exact(e.bytes)
        .all(|record| sheet_unpack::record_right(e, frame, record))
}

// Whether bytes with a whole header are a sheet that keeps every rule of an edition.
fn sheet_right(e: Edition, sheet: &[u8]) -> bool
    requires { header_size ≤ length sheet.now }
    ensures { result ≡ bytes_right (layout_for e) sheet.now }
{
    let h = sheet_fields::header_in(e, sheet);
    if !sheet_fields::header_right(e, h) {
        return false;
    }
    let n = h.count as usize;
    if sheet.len() != HEADER_BYTES + e.bytes * n {
        return false;
    }
    let frame = Frame {
        width: h.width + 1,
        height: h.height + 1,
        layers: h.layers,
    };
    records_right(e, frame, &sheet[HEADER_BYTES..])
}

// Whether bytes are a sheet that keeps every rule of the edition that they state.
pub fn sheet_sound(sheet: &[u8]) -> bool
    ensures { result ≡ bytes_right (layout_in sheet.now) sheet.now }
{
    if sheet.len() < HEADER_BYTES {
        return false;
    }
    sheet_right(sheet_fields::edition_in(sheet), sheet)
}

// Writes the words of the first n records.
fn take_records(e: Edition, sheet: &[u8], n: usize, out: &mut [u32])
    requires n_records { header_size + record_size (layout_for e) * n ≤ length sheet.now }
    requires n_in_bounds { read_words * n ≤ length out.old }
    ensures { out.new ≡ pasted 0 (flat_map (bytes_words (layout_for e)) (parts (record_size (layout_for e)) n (drop header_size sheet.now))) out.old }
{
    for i in 0..n {
        let from = HEADER_BYTES + e.bytes * i;
        let to = from + e.bytes;
        sheet_unpack::take_record(e, &sheet[from..to], out, READ_WORDS * i);
    }
}

// The reader: the words of a sheet's records, and its edition, width, height and layers.
pub fn read_sheet(sheet: &[u8], out: &mut [u32]) -> Result<Heading, Refusal>
    ensures { (read_told result ≡ read_answer sheet.now (length out.old))
        × (out.new ≡ read_out sheet.now out.old) }
{
    if sheet.len() < HEADER_BYTES {
        return Err(Refusal::Sheet);
    }
    let e = sheet_fields::edition_in(sheet);
    if !sheet_right(e, sheet) {
        return Err(Refusal::Sheet);
    }
    let h = sheet_fields::header_in(e, sheet);
    let n = h.count as usize;
    if out.len() < READ_WORDS * n {
        return Err(Refusal::Room(n));
    }
    take_records(e, sheet, n, out);
    Ok(Heading {
        count: n,
        edition: h.edition as u32,
        width: (h.width + 1) as usize,
        height: (h.height + 1) as usize,
        layers: h.layers as usize,
    })
}
