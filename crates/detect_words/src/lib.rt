// What is left of a keypoint, as words: its ten, or the one word of the cell where it began, written as far as there is room.
#![tactic(auto)]

ghost use Rattle.std.specs.Prelude.{◌≡◌, ◌^◌, ◌<◌, length, set, option_to_list};
ghost use Rattle.std.proofs.lemmas.List.Edits.{sets};
ghost use Rattle.params.specs.Limits.{max_side};
ghost use Rattle.detect_extrema.specs.Scan.{words_of};
ghost use Rattle.detect_words.specs.Leaves.{cell_word, leaves};

use detect_keypoint::RawKeypoint;
use params::{KEYPOINT_WORDS, MAX_SIDE};

// What the search writes of each keypoint that it finds: the one word of the cell where it began, or its ten words.
#[derive(Clone, Copy)]
pub enum Form {
    CellWord,
    KeypointWords,
}

// Where the search writes, from the place `from` on, and in which form.
#[derive(Clone, Copy)]
pub struct Place {
    pub from: usize,
    pub form: Form,
}

// Writes a word where there is room for it.
fn put_word(out: &mut [u32], at: usize, x: u32)
    ensures { out.new ≡ set out.old at x }
{
    if at < out.len() {
        out[at] = x;
    }
}

// Writes words from a place on, as far as there is room. The bounds on places, here and below, only keep a sum of places from wrapping:
// a layer has at most 2^26 cells, so its keypoints take less than 2^30 words.
fn copy(from: &[u32], out: &mut [u32], at: usize)
    requires { at < 2 ^ 40 }
    ensures { out.new ≡ sets out.old at from.now }
{
    for (i, word) in from.iter().enumerate() {
        put_word(out, at + i, *word);
    }
}

// Writes a keypoint's words at a place, as far as there is room.
fn put(out: &mut [u32], at: usize, k: RawKeypoint)
    requires { at < 2 ^ 40 }
    ensures { out.new ≡ sets out.old at (words_of k) }
{
    let row = [
        ieee::bits_of(k.x),
        ieee::bits_of(k.y),
        ieee::bits_of(k.size),
        ieee::bits_of(k.response),
        k.octave,
        k.layer,
        ieee::bits_of(k.xi),
        k.cc,
        k.rr,
        k.moves,
    ];
    copy(&row, out, at);
}

// A cell as one word: no column is as large as the longest side.
fn cell_word(r: usize, c: usize) -> u32
    requires { (r < max_side) × (c < max_side) }
    ensures { result ≡ cell_word r c }
{
    (r * MAX_SIDE + c) as u32
}

// Writes what is left of what the cell at row r, column c, gives, as far as there is room, and counts its words.
pub fn leave(x: Option<RawKeypoint>, r: usize, c: usize, p: Place, out: &mut [u32]) -> usize
    requires { (r < max_side) × (c < max_side) × (p.from < 2 ^ 40) }
    ensures value { result ≡ length (leaves p.form r c (option_to_list x)) }
    ensures out_after { out.new ≡ sets out.old p.from (leaves p.form r c (option_to_list x)) }
{
    let Some(k) = x else {
        return 0;
    };
    match p.form {
        Form::CellWord => {
            put_word(out, p.from, cell_word(r, c));
            1
        }
        Form::KeypointWords => {
            put(out, p.from, k);
            KEYPOINT_WORDS
        }
    }
}
