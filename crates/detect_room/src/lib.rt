// What is written of a layer's keypoints: the words of all where they fit in what is lent, and else nothing.
#![tactic(auto)]

ghost use Rattle.std.specs.Prelude.{◌≡◌, ◌*◌, ◌<◌, length};
ghost use Rattle.params.specs.Limits.{border};
ghost use Rattle.params.specs.Answers.{landed, told};
ghost use Rattle.detect_refine.specs.Place.{Searched};
ghost use Rattle.detect_extrema.specs.Neighbours.{tied};
ghost use Rattle.detect_extrema.specs.Scan.{keypoints, words};
ghost use Rattle.detect_hold.specs.Front.{Holds};
ghost use Rattle.detect_room.specs.Room.{room_answer, sample_answer};

use detect_hold::Front;
use detect_keypoint::Search;
use detect_refine::BORDER;
use detect_words::{Form, Place};
use params::{KEYPOINT_WORDS, Refusal};
use picture::Shape;

// The cells of so many keypoints are held until it is known that the words of all fit in what is lent: 8 KB on the stack, and more than most layers of a frame have.
// Any number would do.
const HELD: usize = 2048;

// A picture with a side no longer than its two borders has no cell to search.
pub const BORDERS: usize = 2 * BORDER;

// Writes the words of all keypoints where they fit, and else nothing. That they fit is known at once where no more are held and no more cells behind them have a hint than
// there is room for; else the rows behind are searched to count them.
fn land(
    dog: &[f32],
    t: Shape,
    s: Search,
    f: Front,
    hold: &[u32],
    out: &mut [u32],
) -> Result<usize, Refusal>
    requires searched { Searched (length dog.now) t s }
    requires border_bound { 2 * border < t.width }
    requires holds { Holds dog.now t s f.row f.count hold.now }
    ensures value { told result ≡ room_answer (keypoints tied dog.now t s) (length out.old) }
    ensures out_after { out.new ≡ landed (room_answer (keypoints tied dog.now t s) (length out.old)) (words (keypoints tied dog.now t s)) out.old }
{
    let room = out.len();
    if KEYPOINT_WORDS * (f.count + detect_hold::rest_hints(dog, t, s, f.row)) > room {
        let p = Place {
            from: 0,
            form: Form::CellWord,
        };
        let count = f.count + detect_hold::rest_words(dog, t, s, f.row, p, &mut []);
        if KEYPOINT_WORDS * count > room {
            return Err(Refusal::Room(count));
        }
    }
    Ok(detect_hold::write(dog, t, s, f, hold, out))
}

// The answer for a stack that no check before that of the samples refuses, where there are cells to search. No cell gives more than one keypoint: where there is room for as
// many keypoints as cells, the samples are tested first, and the words are written as they are found.
pub fn search(dog: &[f32], t: Shape, s: Search, out: &mut [u32]) -> Result<usize, Refusal>
    requires searched { Searched (length dog.now) t s }
    requires border_bound { (2 * border < t.width) × (2 * border < t.height) }
    ensures value { told result ≡ sample_answer dog.now (keypoints tied dog.now t s) (length out.old) }
    ensures out_after { out.new ≡ landed (sample_answer dog.now (keypoints tied dog.now t s) (length out.old)) (words (keypoints tied dog.now t s)) out.old }
{
    if KEYPOINT_WORDS * ((t.width - BORDERS) * (t.height - BORDERS)) <= out.len() {
        if !samples::all_good(dog) {
            return Err(Refusal::Samples);
        }
        let p = Place {
            from: 0,
            form: Form::KeypointWords,
        };
        return Ok(detect_hold::rest_words(dog, t, s, BORDER, p, out) / KEYPOINT_WORDS);
    }
    let mut hold = [0; HELD];
    let Ok(f) = detect_hold::front_of(dog, t, s, &mut hold) else {
        return Err(Refusal::Samples);
    };
    land(dog, t, s, f, &hold, out)
}
