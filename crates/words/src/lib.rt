// A keypoint and an oriented keypoint of the words that they went out as, and the descriptor's inputs as words. Any other number of words stands for a keypoint that no entry takes.
#![tactic(auto)]

ghost use Rattle.std.specs.Prelude.{◌≡◌, ℕ, length, MatchResult};
ghost use Rattle.params.specs.Limits.{keypoint_words};
ghost use Rattle.params.specs.Answers.{fault_told};
ghost use Rattle.params.specs.declared.Refusal.TheVariants.{Room};
ghost use Rattle.descriptor_inputs.specs.Inputs.{inputs_told};
ghost use Rattle.orient_words.specs.Oriented.{oriented_words};
ghost use Rattle.words.specs.Keypoint.{words_in, broken, keypoint_in};
ghost use Rattle.words.specs.Inputs.{input_words, inputs_number, inputs_left};
ghost use Rattle.words.specs.Oriented.{six_in, unoriented, oriented_in};

use detect_keypoint::RawKeypoint;
use orient_words::OrientedKeypoint;
use params::{KEYPOINT_WORDS, Refusal};
use picture::Spot;

// An oriented keypoint goes out as so many words.
const ORIENTED_WORDS: usize = 6;

// A keypoint that no entry takes.
fn broken_keypoint() -> RawKeypoint
    ensures { result ≡ broken }
{
    RawKeypoint {
        x: f32::NAN,
        y: f32::NAN,
        size: f32::NAN,
        response: f32::NAN,
        octave: 0,
        layer: 0,
        xi: f32::NAN,
        cc: 0,
        rr: 0,
        moves: 0,
    }
}

// The keypoint of ten words.
fn whole_keypoint(k: &[u32]) -> RawKeypoint
    requires { length k.now ≡ keypoint_words }
    ensures { result ≡ words_in k.now }
{
    RawKeypoint {
        x: ieee::of_bits(k[0]),
        y: ieee::of_bits(k[1]),
        size: ieee::of_bits(k[2]),
        response: ieee::of_bits(k[3]),
        octave: k[4],
        layer: k[5],
        xi: ieee::of_bits(k[6]),
        cc: k[7],
        rr: k[8],
        moves: k[9],
    }
}

// The keypoint of words, whole or not.
pub fn keypoint_in(k: &[u32]) -> RawKeypoint
    ensures { result ≡ keypoint_in k.now }
{
    if k.len() == KEYPOINT_WORDS {
        whole_keypoint(k)
    } else {
        broken_keypoint()
    }
}

// An oriented keypoint that no entry takes.
fn unoriented_keypoint() -> OrientedKeypoint
    ensures { result ≡ unoriented }
{
    OrientedKeypoint {
        x: f32::NAN,
        y: f32::NAN,
        size: f32::NAN,
        response: f32::NAN,
        octave: 0,
        angle: f32::NAN,
    }
}

// The oriented keypoint of six words.
fn whole_oriented(o: &[u32]) -> OrientedKeypoint
    requires { length o.now ≡ oriented_words }
    ensures { result ≡ six_in o.now }
{
    OrientedKeypoint {
        x: ieee::of_bits(o[0]),
        y: ieee::of_bits(o[1]),
        size: ieee::of_bits(o[2]),
        response: ieee::of_bits(o[3]),
        octave: o[4],
        angle: ieee::of_bits(o[5]),
    }
}

// The oriented keypoint of words, whole or not.
pub fn oriented_in(o: &[u32]) -> OrientedKeypoint
    ensures { result ≡ oriented_in o.now }
{
    if o.len() == ORIENTED_WORDS {
        whole_oriented(o)
    } else {
        unoriented_keypoint()
    }
}

// The inputs of a descriptor go out as so many words.
const INPUT_WORDS: usize = 4;

// The inputs as words, or why there are none; lack of room where not so many words are lent.
pub fn give_inputs(i: Result<Spot, Refusal>, out: &mut [u32]) -> Result<(), Refusal>
    ensures value { (fault_told result ≡ inputs_number (inputs_told i) (length out.old)) × (out.new ≡ inputs_left (inputs_told i) out.old) }
    ensures refused { MatchResult i (λ _. (n : ℕ) → result ≡ Err (Room n) → n ≡ input_words) (λ r. result ≡ Err r) }
{
    let spot = i?;
    if out.len() != INPUT_WORDS {
        return Err(Refusal::Room(INPUT_WORDS));
    }
    out.copy_from_slice(&[
        ieee::bits_of(spot.x),
        ieee::bits_of(spot.y),
        ieee::bits_of(spot.scale),
        ieee::bits_of(spot.angle),
    ]);
    Ok(())
}
