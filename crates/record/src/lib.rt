// The maker of records: the words of a sheet's record, of a raw keypoint, an oriented one and a descriptor's answer. Whether it is blank is told by the samples alone.
#![tactic(auto)]

ghost use Rattle.std.specs.Prelude.{◌≡◌, ℕ, ◌+◌, ◌≤◌, ◌++◌, map, length};
ghost use Rattle.lists.specs.Pasted.{pasted};
ghost use Rattle.params.specs.Limits.{value_count};
ghost use Rattle.params.specs.Answers.{fault_told};
ghost use Rattle.params.specs.declared.Refusal.TheVariants.{Room};
ghost use Rattle.sheet.specs.Words.{read_words, front_words};
ghost use Rattle.words.specs.Keypoint.{keypoint_in};
ghost use Rattle.words.specs.Oriented.{oriented_in};
ghost use Rattle.record.specs.Record.{head_of, floats_of, byte_of, blank_of, record_of};
ghost use Rattle.record.specs.Make.{alike, record_wrong, make_number, make_left};

use detect_keypoint::RawKeypoint;
use orient_words::OrientedKeypoint;
use params::{MAX_LAYERS, MAX_SIDE, Refusal};
use sheet::{FRONT_WORDS, Frame, PLAIN_WORDS, READ_WORDS, VALUES};

// A value, by its bits, as the whole number that it is; 256 where it is none from 0 to 255: a word that the sheet's rules refuse, so that no case of its own is needed.
fn byte_of(bits: u32) -> u32
    ensures { result ≡ byte_of bits }
{
    let x = ieee::of_bits(bits);
    if (x >= 0.0) & (x <= 255.0) {
        let n = std::num::truncating_f32_to_u64(x) as u32;
        if n as f32 == x {
            return n;
        }
        return 256;
    }
    256
}

// Whether the oriented keypoint is of the raw one.
fn is_alike(k: RawKeypoint, o: OrientedKeypoint) -> bool
    ensures { result ≡ alike k o }
{
    (k.octave == o.octave)
        & ((ieee::bits_of(k.x) == ieee::bits_of(o.x))
            & ((ieee::bits_of(k.y) == ieee::bits_of(o.y))
                & ((ieee::bits_of(k.size) == ieee::bits_of(o.size))
                    & (ieee::bits_of(k.response) == ieee::bits_of(o.response)))))
}

// Writes a record's whole numbers and floats.
fn put_front(k: RawKeypoint, o: OrientedKeypoint, out: &mut [u32])
    requires { front_words ≤ length out.old }
    ensures { out.new ≡ pasted 0 (head_of k ++ floats_of o) out.old }
{
    out[0] = k.rr;
    out[1] = k.cc;
    out[2] = k.octave % 256;
    out[3] = k.octave / 256 % 256;
    out[4] = k.octave / 65536;
    out[5] = ieee::bits_of(o.x);
    out[6] = ieee::bits_of(o.y);
    out[7] = ieee::bits_of(o.size);
    out[8] = ieee::bits_of(o.response);
    out[9] = ieee::bits_of(o.angle);
}

// Writes its values as whole numbers.
fn put_values(values: &[u32], out: &mut [u32])
    requires { (length values.now ≡ value_count) × (front_words + value_count ≤ length out.old) }
    ensures { out.new ≡ pasted front_words (map byte_of values.now) out.old }
{
    for (i, value) in values.iter().enumerate() {
        out[FRONT_WORDS + i] = byte_of(*value);
    }
}

// Writes a record.
fn put_record(k: RawKeypoint, o: OrientedKeypoint, values: &[u32], samples: usize, out: &mut [u32])
    requires { (length values.now ≡ value_count) × (length out.old ≡ read_words) }
    ensures { out.new ≡ record_of k o values.now samples }
{
    put_front(k, o, out);
    put_values(values, out);
    out[PLAIN_WORDS] = u32::from(samples == 0);
}

// Whether the maker refuses them: the record is put together, and the sheet's own rules are asked of it.
fn record_wrong(k: RawKeypoint, o: OrientedKeypoint, values: &[u32], samples: usize) -> bool
    ensures { result ≡ record_wrong k o values.now samples }
{
    if (k.xi != k.xi) | !is_alike(k, o) {
        return true;
    }
    if values.len() != VALUES {
        return true;
    }
    let mut words = [0; READ_WORDS];
    put_record(k, o, values, samples, &mut words);
    let widest = Frame {
        width: MAX_SIDE as u64,
        height: MAX_SIDE as u64,
        layers: MAX_LAYERS as u64,
    };
    !sheet_pack::record_right(sheet_edition::edition_of(2), widest, &words)
}

// The maker: the 139 words of a record, of the words of a raw keypoint and of an oriented one, and of a descriptor's values and samples.
pub fn make_record(
    keypoint: &[u32],
    oriented: &[u32],
    values: &[u32],
    samples: usize,
    out: &mut [u32],
) -> Result<(), Refusal>
    ensures value { (fault_told result ≡ make_number (keypoint_in keypoint.now) (oriented_in oriented.now) values.now samples (length out.old))
        × (out.new ≡ make_left (keypoint_in keypoint.now) (oriented_in oriented.now) values.now samples out.old) }
    ensures room { (n : ℕ) → result ≡ Err (Room n) → n ≡ read_words }
{
    let k = words::keypoint_in(keypoint);
    let o = words::oriented_in(oriented);
    if record_wrong(k, o, values, samples) {
        return Err(Refusal::Fields);
    }
    if out.len() != READ_WORDS {
        return Err(Refusal::Room(READ_WORDS));
    }
    put_record(k, o, values, samples, out);
    Ok(())
}
