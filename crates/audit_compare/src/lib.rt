// A record that the rules give beside a record of a sheet: the first field in which they differ, and how far all records agree.
#![tactic(auto)]

ghost use Rattle.std.specs.Prelude.{◌≡◌, ◌*◌, ◌<◌, ◌≤◌, IfSome, Err, length, get_or, take, drop};
ghost use Rattle.sheet.specs.Layout.{record_size};
ghost use Rattle.sheet.specs.Sheet.{all_pass};
ghost use Rattle.sheet.specs.Words.{read_words};
ghost use Rattle.sheet_edition.specs.Edition.{layout_for};
ghost use Rattle.sheet_fields.specs.Fields.{bytes_words};
ghost use Rattle.audit_compare.specs.Difference.{first_difference, fields_of, of_octave};
ghost use Rattle.audit_compare.specs.Numbered.{IsField, Numbered};
ghost use Rattle.audit_compare.specs.Standing.{refused, stated_in, number_or_none, field_of, standing_in, difference_at, compared};

mod agreement;

pub use agreement::{Agreement, Difference, Stopped};
use sheet::{PLAIN_WORDS, READ_WORDS};
use sheet_edition::Edition;

// The fields of a record, of which the sixth is the blank bit and the seventh its zero bits.
const FIELDS: usize = 140;

const OCTAVE: usize = 2;

const BLANK: usize = 5;

const ZERO: usize = 6;

// A field of a record's 139 words, by its place in the sheet. Its zero bits are 0, and so is the blank bit where there is none.
fn field_at(e: Edition, words: &[u32], i: usize) -> u32
    requires { (length words.now ≡ read_words) × (i < 140) }
    ensures { result ≡ get_or (fields_of (layout_for e) words.now) i 0 }
{
    if i < BLANK {
        return words[i];
    }
    if i > ZERO {
        return words[i - 2];
    }
    if (i == BLANK) & (e.marks == 2) {
        return words[PLAIN_WORDS];
    }
    0
}

// The number, from 1, of the first field in which two records of 139 words differ.
fn first_difference(e: Edition, one: &[u32], other: &[u32]) -> Option<u32>
    requires { (length one.now ≡ read_words) × (length other.now ≡ read_words) }
    ensures is_field { IfSome result IsField }
    ensures value { number_or_none result ≡ first_difference (fields_of (layout_for e) one.now) (fields_of (layout_for e) other.now) }
{
    for i in 0..FIELDS {
        if field_at(e, one, i) != field_at(e, other, i) {
            return Some(i as u32 + 1);
        }
    }
    None
}

// The words of the record at a place of a sheet, of whose bytes `body` are those behind the header.
fn words_at(e: Edition, body: &[u8], n: usize, i: usize) -> [u32; READ_WORDS]
    requires { (record_size (layout_for e) * n ≤ length body.now) × (i < n) }
    ensures { result ≡ bytes_words (layout_for e) (take (record_size (layout_for e)) (drop (record_size (layout_for e) * i) body.now)) }
{
    let mut words = [0u32; READ_WORDS];
    let from = e.bytes * i;
    let to = from + e.bytes;
    sheet_unpack::take_record(e, &body[from..to], &mut words, 0);
    words
}

// How a record and the sheet's at a place differ, if they do.
fn difference_at(e: Edition, body: &[u8], n: usize, i: usize, made: &[u32]) -> Option<Difference>
    requires { (record_size (layout_for e) * n ≤ length body.now) × (length made.now ≡ read_words) }
    ensures numbered { Numbered result }
    ensures value { field_of result ≡ difference_at (layout_for e) (stated_in (layout_for e) n body.now) i made.now }
{
    if i >= n {
        return Some(Difference::Missing);
    }
    let words = words_at(e, body, n, i);
    let number = first_difference(e, made, &words)?;
    Some(Difference::Field(number))
}

// After a stage that refused: nothing is made.
pub fn stopped() -> Stopped
    ensures { standing_in (Err result) ≡ refused }
{
    let agreement = Agreement {
        place: 0,
        difference: None,
    };
    Stopped { agreement }
}

// The agreement of a standing, whether a stage has refused or not.
pub fn agreement_of(st: Result<Agreement, Stopped>) -> Agreement
    ensures place { result.place ≡ (standing_in st).place }
    ensures field { field_of result.difference ≡ (standing_in st).field }
{
    match st {
        Ok(agreement) => agreement,
        Err(stopped) => stopped.agreement,
    }
}

// How far the records agree after one more. A difference stays, with its refusal if there is one; anything else is good from here on.
pub fn compared(
    e: Edition,
    body: &[u8],
    n: usize,
    st: Result<Agreement, Stopped>,
    made: &[u32],
) -> Result<Agreement, Stopped>
    requires { (record_size (layout_for e) * n ≤ length body.now) × (length made.now ≡ read_words) }
    ensures { standing_in result ≡ compared (layout_for e) (stated_in (layout_for e) n body.now) (standing_in st) made.now }
{
    let a = agreement_of(st);
    if a.difference.is_some() {
        return st;
    }
    let Some(difference) = difference_at(e, body, n, a.place, made) else {
        return Ok(Agreement {
            place: a.place + 1,
            difference: None,
        });
    };
    Ok(Agreement {
        place: a.place,
        difference: Some(difference),
    })
}

// Whether every record is of an octave.
pub fn octaves_right(e: Edition, body: &[u8], n: usize, octave: u32) -> bool
    requires { record_size (layout_for e) * n ≤ length body.now }
    ensures { result ≡ all_pass (of_octave octave) (stated_in (layout_for e) n body.now) }
{
    (0..n).all(|i| words_at(e, body, n, i)[OCTAVE] == octave)
}
