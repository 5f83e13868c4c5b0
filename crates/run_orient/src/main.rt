// Replays keypoints with the published Rust's answers (host/record/src/orientation.rs says how they are laid out) through `assign_orientations`, and says how many cases,
// oriented keypoints and words were compared and how many differ.
#![tactic(auto)]

ghost use Rattle.std.proofs.Common.{lit≤};
ghost use Rattle.run_replay.specs.Sizes.{most_room};

use detect_keypoint::RawKeypoint;
use picture::Size;
use run_replay::Replay;
use std::io;
use std::io::Read;

// A case's head.
#[derive(Clone, Copy, Drop)]
struct Case {
    size: Size,
    keypoint: RawKeypoint,
    room: usize,
    number: u32,
    count: usize,
    samples: usize,
}

fn next_keypoint<R: Read + Drop>(replay: &mut Replay<R>) -> io::Result<RawKeypoint> {
    Ok(RawKeypoint {
        x: replay.next_float()?,
        y: replay.next_float()?,
        size: replay.next_float()?,
        response: replay.next_float()?,
        octave: replay.next()?,
        layer: replay.next()?,
        xi: replay.next_float()?,
        cc: replay.next()?,
        rr: replay.next()?,
        moves: replay.next()?,
    })
}

impl run_replay::HeldCase for Case {
    const MARK: u32 = 0x4243_4c32;

    const MOST_ROOM: usize = run_replay::MOST_ROOM;

    ghost MOST_ROOM = { most_room };

    ghost is_held = { lit≤ tt };

    fn read<R: Read + Drop>(replay: &mut Replay<R>) -> io::Result<Case> {
        Ok(Case {
            size: Size {
                width: replay.next_size()?,
                height: replay.next_size()?,
            },
            keypoint: next_keypoint(replay)?,
            room: replay.next_size()?,
            number: replay.next()?,
            count: replay.next_size()?,
            samples: replay.next_size()?,
        })
    }

    fn samples(&self) -> usize {
        self.size.width.saturating_mul(self.size.height)
    }

    fn room(&self) -> usize {
        self.room
    }

    fn replay<R: Read + Drop>(
        &self,
        replay: &mut Replay<R>,
        samples: &[f32],
        out: &mut [u32],
    ) -> io::Result<()> {
        let answer = orient::assign_orientations(samples, self.size, self.keypoint, out);
        let read = match answer {
            Ok(oriented) => oriented.samples,
            Err(_) => 0,
        };
        let counts = &mut replay.counts;
        counts.compare_answer(
            answer.map(|oriented| oriented.count),
            self.number,
            self.count,
        );
        counts.cells_differ = counts
            .cells_differ
            .wrapping_add(u64::from(read != self.samples));
        Ok(())
    }
}

fn main(rt: HostRuntime) -> io::Result<()> {
    let file = run_io::open_file(&rt, "cases.bin")?;
    let counts = run_replay::replay_held::<Case>(rt.alloc(), file)?;
    println!(rt; "{counts}")?;
    println!(rt;
        "numbers of cells read that differ: {}",
        counts.cells_differ
    )
}
