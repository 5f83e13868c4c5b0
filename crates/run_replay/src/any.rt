// A list whose cases name their own most room, and its replay.
#![tactic(auto)]

ghost use Rattle.std.specs.Prelude.{◌≤◌, IfOk};
ghost use Rattle.run_replay.specs.Sizes.{most_samples};

use crate::{Counts, MOST_SAMPLES, PATTERN, Replay};
use std::alloc::Global;
use std::io;
use std::io::Read;

// What a `HeldCase` is, with a limit of its own: of a `HeldCase` it is proved that it is lent no more than 4,096 words, and a `Case` may be lent as many as it names.
pub trait Case: Drop {
    // How a list of such cases begins.
    const MARK: u32;

    // More words than these are lent in no case.
    const MOST_ROOM: usize;

    fn read<R: Read + Drop>(replay: &mut Replay<R>) -> io::Result<Self>;

    fn samples(&self) -> usize;

    fn room(&self) -> usize;

    fn replay<R: Read + Drop>(
        &self,
        replay: &mut Replay<R>,
        samples: &[f32],
        out: &mut [u32],
    ) -> io::Result<()>;
}

// Replays a case of n samples, whose head is read, in so much room. It is the file that names both.
fn replay_case<C: Case, R: Read + Drop>(
    alloc: Global,
    replay: &mut Replay<R>,
    case: &C,
    n: usize,
    room: usize,
) -> io::Result<()>
    requires { n ≤ most_samples }
{
    let samples = replay.samples(alloc, n)?;
    let mut out = vec![in alloc; PATTERN; room]?;
    case.replay(replay, &samples, &mut out)?;
    replay.compare_words(&out)
}

// Reads a case and replays it, if it asks for no more than it may.
fn step<C: Case, R: Read + Drop>(alloc: Global, replay: &mut Replay<R>) -> io::Result<()> {
    let case = C::read(replay)?;
    let n = case.samples();
    let room = case.room();
    if (n > MOST_SAMPLES) | (room > C::MOST_ROOM) {
        replay.give_up();
        return Ok(());
    }
    replay_case(alloc, replay, &case, n, room)
}

// Replays the cases of a list, or fewer if the file can't be read on, and what is counted. Nothing may stand behind the last case: four bytes are tried for, and 4 left over may be
// more.
pub fn replay_list<C: Case>(alloc: Global, file: impl Read + Drop) -> io::Result<Counts>
    ensures { IfOk result (λ counts. counts.left_over ≤ 4) }
{
    let mut replay = Replay::new(file);
    if replay.next()? != C::MARK {
        replay.give_up();
    }
    let cases = replay.next()?;
    for _ in 0..cases {
        if !replay.counts.readable() {
            break;
        }
        step::<C, _>(alloc, &mut replay)?;
    }
    let mut after = [0u8; 4];
    let rest = run_io::read_full(&mut replay.file, &mut after)?;
    replay.counts.in_the_file = u64::from(cases);
    replay.counts.left_over = rest as u64;
    Ok(replay.counts)
}
