// Replays places of pictures with the published Rust's answers (host/record/src/descriptor.rs says how they are laid out) through `compute_descriptor`, and says how many
// cases, descriptors and words were compared and how many differ.
#![tactic(auto)]

ghost use Rattle.std.proofs.Common.{lit≤};

use picture::{Size, Spot};
use run_replay::Replay;
use std::io;
use std::io::Read;

// A case's head.
#[derive(Clone, Copy, Drop)]
struct Case {
    size: Size,
    spot: Spot,
    room: usize,
    number: u32,
    count: usize,
    samples: usize,
}

impl run_replay::HeldCase for Case {
    // "BCL3".
    const MARK: u32 = 0x4243_4c33;

    // Twice 128, so that more than is wanted is tried too.
    const MOST_ROOM: usize = 256;

    ghost MOST_ROOM = { 256 };

    ghost is_held = { lit≤ tt };

    fn read<R: Read + Drop>(replay: &mut Replay<R>) -> io::Result<Case> {
        Ok(Case {
            size: Size {
                width: replay.next_size()?,
                height: replay.next_size()?,
            },
            spot: Spot {
                x: replay.next_float()?,
                y: replay.next_float()?,
                scale: replay.next_float()?,
                angle: replay.next_float()?,
            },
            room: replay.next_size()?,
            number: replay.next()?,
            count: replay.next_size()?,
            samples: replay.next_size()?,
        })
    }

    fn samples(&self) -> usize {
        self.size.width.saturating_mul(self.size.height)
    }

    fn room(&self) -> usize {
        self.room
    }

    // What counts as a keypoint here is a place that is described.
    fn replay<R: Read + Drop>(
        &self,
        replay: &mut Replay<R>,
        samples: &[f32],
        out: &mut [u32],
    ) -> io::Result<()> {
        let answer = descriptor::compute_descriptor(samples, self.size, self.spot, out);
        let counts = &mut replay.counts;
        let before = counts.keypoints;
        counts.compare_answer(
            answer.map(|_| descriptor::count_of(answer)),
            self.number,
            self.count,
        );
        counts.keypoints = before.wrapping_add(u64::from(self.number == 0));
        let used = answer.unwrap_or(0);
        counts.cells_differ = counts
            .cells_differ
            .wrapping_add(u64::from(used != self.samples));
        Ok(())
    }
}

fn main(rt: HostRuntime) -> io::Result<()> {
    let file = run_io::open_file(&rt, "cases.bin")?;
    let counts = run_replay::replay_held::<Case>(rt.alloc(), file)?;
    println!(rt; "{counts}")?;
    println!(rt; "numbers of samples that differ: {}", counts.cells_differ)
}
