// The oriented keypoints of the angles found about a keypoint, as words: six each, all or none.
#![tactic(auto)]

ghost use Rattle.std.specs.Prelude.{◌≡◌, map, ◌*◌, ◌≤◌, length};
ghost use Rattle.lists.specs.Pasted.{pasted};
ghost use Rattle.orient_tally.specs.Sample.{bins};
ghost use Rattle.orient_words.specs.Oriented.{oriented_of, oriented_words, words_of, words, oriented_told};
ghost use Rattle.orient_words.specs.Given.{given_with, left_with};

use detect_keypoint::RawKeypoint;
use orient_peaks::Angles;
use params::Refusal;

// A keypoint with an angle, in degrees.
#[derive(Clone, Copy)]
pub struct OrientedKeypoint {
    pub x: f32,
    pub y: f32,
    pub size: f32,
    pub response: f32,
    pub octave: u32,
    pub angle: f32,
}

// How many oriented keypoints were written, and the number of cells read for them.
#[derive(Clone, Copy, Debug, PartialEq, Eq)]
pub struct Oriented {
    pub count: usize,
    pub samples: usize,
}

// The angles about a keypoint, and the number of cells read for them.
#[derive(Clone, Copy)]
pub struct Directions {
    pub angles: Angles,
    pub read: usize,
}

fn with_angle(k: RawKeypoint, angle: f32) -> OrientedKeypoint
    ensures { result ≡ oriented_of k angle }
{
    OrientedKeypoint {
        x: k.x,
        y: k.y,
        size: k.size,
        response: k.response,
        octave: k.octave,
        angle,
    }
}

fn words_of(o: OrientedKeypoint) -> [u32; 6]
    ensures { result ≡ words_of o }
{
    [
        ieee::bits_of(o.x),
        ieee::bits_of(o.y),
        ieee::bits_of(o.size),
        ieee::bits_of(o.response),
        o.octave,
        ieee::bits_of(o.angle),
    ]
}

// Six words for each angle, from the front on.
fn put_all(k: RawKeypoint, found: &[f32], out: &mut [u32])
    requires { oriented_words * length found.now ≤ length out.old }
    ensures { out.new ≡ pasted 0 (words (map (oriented_of k) found.now)) out.old }
{
    for (i, angle) in found.iter().enumerate() {
        let at = i * 6;
        out[at..at + 6].copy_from_slice(&words_of(with_angle(k, *angle)));
    }
}

// Room is counted first: all words are written, or none.
#[tactic(auto, unfolding(crate::specs::Given::room_for, crate::specs::Given::given_with, crate::specs::Given::left_with, params::specs::Answers::answer_of))]
pub fn give(k: RawKeypoint, d: Directions, out: &mut [u32]) -> Result<Oriented, Refusal>
    requires { d.angles.count ≤ bins }
    ensures value { oriented_told result ≡ given_with d (length out.old) }
    ensures out_after { out.new ≡ left_with k d out.old }
{
    let count = d.angles.count;
    if count * 6 > out.len() {
        return Err(Refusal::Room(count));
    }
    put_all(k, &d.angles.all[..count], out);
    Ok(Oriented {
        count,
        samples: d.read,
    })
}
