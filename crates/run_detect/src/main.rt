// Replays stacks with the published Rust's answers (host/record/src/detection.rs says how they are laid out) through `find_extrema`, and says how many cases, keypoints and
// words were compared and how many differ.
#![tactic(auto)]

ghost use Rattle.std.proofs.Common.{lit≤};
ghost use Rattle.run_replay.specs.Sizes.{most_room};

use params::Settings;
use picture::Shape;
use run_replay::Replay;
use std::io;
use std::io::Read;

// A case's head.
#[derive(Clone, Copy, Drop)]
struct Case {
    shape: Shape,
    layer: usize,
    octave: u32,
    settings: Settings,
    room: usize,
    number: u32,
    count: usize,
}

fn next_double<R: Read + Drop>(replay: &mut Replay<R>) -> io::Result<f64> {
    let low = replay.next()?;
    let high = replay.next()?;
    Ok(ieee::of_bits64(u64::from(high) * 0x1_0000_0000 + u64::from(low)))
}

impl run_replay::HeldCase for Case {
    const MARK: u32 = 0x4243_4c31;

    const MOST_ROOM: usize = run_replay::MOST_ROOM;

    ghost MOST_ROOM = { most_room };

    ghost is_held = { lit≤ tt };

    fn read<R: Read + Drop>(replay: &mut Replay<R>) -> io::Result<Case> {
        let width = replay.next_size()?;
        let height = replay.next_size()?;
        let planes = replay.next_size()?;
        let layer = replay.next_size()?;
        let octave = replay.next()?;
        let layers = replay.next_size()?;
        let contrast = next_double(replay)?;
        let edge = next_double(replay)?;
        let sigma = next_double(replay)?;
        let room = replay.next_size()?;
        let number = replay.next()?;
        let count = replay.next_size()?;
        Ok(Case {
            shape: Shape {
                width,
                height,
                planes,
            },
            layer,
            octave,
            settings: Settings {
                contrast,
                edge,
                sigma,
                layers,
            },
            room,
            number,
            count,
        })
    }

    fn samples(&self) -> usize {
        let t = self.shape;
        t.width.saturating_mul(t.height).saturating_mul(t.planes)
    }

    fn room(&self) -> usize {
        self.room
    }

    // The room that stands before the words is the head's.
    fn replay<R: Read + Drop>(
        &self,
        replay: &mut Replay<R>,
        samples: &[f32],
        out: &mut [u32],
    ) -> io::Result<()> {
        let c = *self;
        let answer = detect::find_extrema(samples, c.shape, c.layer, c.octave, c.settings, out);
        replay.counts.compare_answer(answer, c.number, c.count);
        if replay.next_size()? != c.room {
            replay.give_up();
        }
        Ok(())
    }
}

fn main(rt: HostRuntime) -> io::Result<()> {
    let file = run_io::open_file(&rt, "cases.bin")?;
    let counts = run_replay::replay_held::<Case>(rt.alloc(), file)?;
    println!(rt; "{counts}")
}
