// What the programs share that replay a list of the published Rust's answers: the list's words, least significant byte first, read one after the other, its cases replayed
// through an entry, what is counted, and the report. A file that is too short, too long, or asks for more than is held is told as such.
#![tactic(auto)]

ghost use Rattle.std.specs.Prelude.{◌≡◌, ℕ, ◌+◌, ◌%◌, ◌^◌, ◌≤◌, ◌&&◌, cond, eqb, length, IfOk, OnOk};
ghost use Rattle.std.specs.Vec.{vec_len};
ghost use Rattle.params.specs.Answers.{number_of, count_of, told};
ghost use Rattle.ieee.specs.F32.{f32};
ghost use Rattle.run_replay.specs.Asked.{Asked};
ghost use Rattle.run_replay.specs.Sizes.{most_samples, most_room};

mod any;

pub use any::{Case, replay_list};
use params::Refusal;
use std::alloc::Global;
use std::io::Read;
use std::{fmt, io};

// The longest list of samples, and the most words that a `HeldCase` is lent.
pub const MOST_SAMPLES: usize = 65536;

pub const MOST_ROOM: usize = 4096;

// What stands in the lent words before a call.
pub const PATTERN: u32 = 0xa5a5_a5a5;

// What is counted.
#[derive(Clone, Copy, Debug, Default, PartialEq, Eq)]
pub struct Counts {
    pub in_the_file: u64,
    pub cases: u64,
    pub keypoints: u64,
    pub words: u64,
    pub numbers_differ: u64,
    pub counts_differ: u64,
    pub words_differ: u64,
    pub missing: u64,
    pub unreadable: u64,
    pub left_over: u64,
    pub cells_differ: u64,
}

impl fmt::Display for Counts {
    fn fmt<W: fmt::Write>(&self, f: &mut fmt::Formatter<W>) -> fmt::Result {
        writeln!(f, "cases in the file: {}", self.in_the_file)?;
        writeln!(f, "cases compared: {}", self.cases)?;
        writeln!(f, "keypoints compared: {}", self.keypoints)?;
        writeln!(f, "words compared: {}", self.words)?;
        writeln!(f, "numbers that differ: {}", self.numbers_differ)?;
        writeln!(f, "counts that differ: {}", self.counts_differ)?;
        writeln!(f, "words that differ: {}", self.words_differ)?;
        writeln!(f, "words missing from the file: {}", self.missing)?;
        writeln!(
            f,
            "marks, cases and rooms that can't be read: {}",
            self.unreadable
        )?;
        write!(f, "bytes left over: {}", self.left_over)
    }
}

impl Counts {
    // Whether the file can be read on.
    pub fn readable(&self) -> bool
        ensures { result ≡ (eqb self.now.missing 0 && eqb self.now.unreadable 0) }
    {
        (self.missing == 0) & (self.unreadable == 0)
    }

    // Counts a case, and whether its answer is the one that is wanted.
    pub fn compare_answer(&mut self, answer: Result<usize, Refusal>, number: u32, count: usize)
        ensures cases { self.new.cases ≡ (self.old.cases + 1) % 2 ^ 64 }
        ensures numbers { self.new.numbers_differ ≡ (self.old.numbers_differ + cond (eqb (number_of (told answer)) number) 0 1) % 2 ^ 64 }
        ensures counts { self.new.counts_differ ≡ (self.old.counts_differ + cond (eqb (count_of (told answer)) count) 0 1) % 2 ^ 64 }
    {
        let other_number = params::number_of(answer) != number;
        let other_count = params::count_of(answer) != count;
        self.numbers_differ = self.numbers_differ.wrapping_add(u64::from(other_number));
        self.counts_differ = self.counts_differ.wrapping_add(u64::from(other_count));
        self.keypoints = self.keypoints.wrapping_add(count as u64);
        self.cases = self.cases.wrapping_add(1);
    }
}

// A list that is read, and what is counted on the way.
#[derive(Drop)]
pub struct Replay<R> {
    file: R,
    pub counts: Counts,
}

impl<R: Read + Drop> Replay<R> {
    pub fn new(file: R) -> Replay<R>
        ensures missing { result.counts.missing ≡ 0 }
        ensures unreadable { result.counts.unreadable ≡ 0 }
    {
        Replay {
            file,
            counts: Counts::default(),
        }
    }

    // The file's next word. One that is not there is counted, and is 0.
    pub fn next(&mut self) -> io::Result<u32>
        ensures { IfOk result (λ word. Asked self.old.counts self.new.counts (R.remaining self.old.file) (R.remaining self.new.file) word) }
    {
        let mut bytes = [0u8; 4];
        let got = run_io::read_full(&mut self.file, &mut bytes)?;
        if got < 4 {
            self.counts.missing = self.counts.missing.wrapping_add(1);
            return Ok(0);
        }
        Ok(u32::from_le_bytes(bytes))
    }

    pub fn next_size(&mut self) -> io::Result<usize>
        ensures { IfOk result (λ word. Asked self.old.counts self.new.counts (R.remaining self.old.file) (R.remaining self.new.file) word) }
    {
        Ok(self.next()? as usize)
    }

    pub fn next_float(&mut self) -> io::Result<f32>
        ensures { IfOk result (λ sample. (word : ℕ) × (sample ≡ f32 word) × Asked self.old.counts self.new.counts (R.remaining self.old.file) (R.remaining self.new.file) word) }
    {
        Ok(ieee::of_bits(self.next()?))
    }

    // The file's next n samples.
    pub fn samples(&mut self, alloc: Global, n: usize) -> io::Result<Vec<f32>>
        ensures { IfOk result (λ samples. vec_len samples ≡ n) }
    {
        let mut samples = vec![in alloc; 0.0f32; n]?;
        for i in 0..n {
            samples[i] = self.next_float()?;
        }
        Ok(samples)
    }

    // Compares the lent words, as they stand after the call, with the file's.
    pub fn compare_words(&mut self, out: &[u32]) -> io::Result<()>
        ensures { OnOk result (self.new.counts.words ≡ (self.old.counts.words + length out.now) % 2 ^ 64) }
    {
        for word in out {
            if self.next()? != *word {
                self.counts.words_differ = self.counts.words_differ.wrapping_add(1);
            }
        }
        self.counts.words = self.counts.words.wrapping_add(out.len() as u64);
        Ok(())
    }

    // What can't be read of the file, so that nothing behind it can.
    pub fn give_up(&mut self)
        ensures { self.new.counts.unreadable ≡ (self.old.counts.unreadable + 1) % 2 ^ 64 }
    {
        self.counts.unreadable = self.counts.unreadable.wrapping_add(1);
    }
}

// A case of a list: its head as it is read, the samples and the lent words that it asks for, and how it is replayed with these.
pub trait HeldCase: Drop {
    // How a list of such cases begins.
    const MARK: u32;

    // More words than these are lent in no case.
    const MOST_ROOM: usize;

    ghost MOST_ROOM: { ℕ };

    fn read<R: Read + Drop>(replay: &mut Replay<R>) -> io::Result<Self>;

    fn samples(&self) -> usize;

    fn room(&self) -> usize;

    fn replay<R: Read + Drop>(
        &self,
        replay: &mut Replay<R>,
        samples: &[f32],
        out: &mut [u32],
    ) -> io::Result<()>;

    ghost is_held: { MOST_ROOM ≤ most_room };
}

// Replays a case of n samples, whose head is read, in so much room. It is the file that names both.
fn replay_case<C: HeldCase, R: Read + Drop>(
    alloc: Global,
    replay: &mut Replay<R>,
    case: &C,
    n: usize,
    room: usize,
) -> io::Result<()>
    requires samples { n ≤ most_samples }
    requires room { room ≤ most_room }
{
    let samples = replay.samples(alloc, n)?;
    let mut out = vec![in alloc; PATTERN; room]?;
    case.replay(replay, &samples, &mut out)?;
    replay.compare_words(&out)
}

// Reads a case and replays it, if it asks for no more than is held.
fn step<C: HeldCase, R: Read + Drop>(alloc: Global, replay: &mut Replay<R>) -> io::Result<()> {
    let case = C::read(replay)?;
    let n = case.samples();
    let room = case.room();
    if (n > MOST_SAMPLES) | (room > C::MOST_ROOM) {
        replay.give_up();
        return Ok(());
    }
    replay_case(alloc, replay, &case, n, room)
}

// Replays the cases of a list, or fewer if the file can't be read on, and what is counted. Nothing may stand behind the last case: four bytes are tried for, and 4 left over may be
// more.
pub fn replay_held<C: HeldCase>(alloc: Global, file: impl Read + Drop) -> io::Result<Counts>
    ensures { IfOk result (λ counts. counts.left_over ≤ 4) }
{
    let mut replay = Replay::new(file);
    if replay.next()? != C::MARK {
        replay.give_up();
    }
    let cases = replay.next()?;
    for _ in 0..cases {
        if !replay.counts.readable() {
            break;
        }
        step::<C, _>(alloc, &mut replay)?;
    }
    let mut after = [0u8; 4];
    let rest = run_io::read_full(&mut replay.file, &mut after)?;
    replay.counts.in_the_file = u64::from(cases);
    replay.counts.left_over = rest as u64;
    Ok(replay.counts)
}

#[cfg(test)]
mod tests {
    use super::*;
    use std::test::Fail;

    // A case of so many samples, whose words are the samples' bits, as far as there is room.
    #[derive(Drop)]
    struct Bits {
        samples: usize,
        room: usize,
    }

    impl HeldCase for Bits {
        ghost use Rattle.std.proofs.Common.{lit≤};

        const MARK: u32 = 0x0a0b_0c0d;

        const MOST_ROOM: usize = 3;

        ghost MOST_ROOM = { 3 };

        ghost is_held = { lit≤ tt };

        fn read<R: Read + Drop>(replay: &mut Replay<R>) -> io::Result<Bits> {
            Ok(Bits {
                samples: replay.next_size()?,
                room: replay.next_size()?,
            })
        }

        fn samples(&self) -> usize {
            self.samples
        }

        fn room(&self) -> usize {
            self.room
        }

        fn replay<R: Read + Drop>(
            &self,
            replay: &mut Replay<R>,
            samples: &[f32],
            out: &mut [u32],
        ) -> io::Result<()> {
            for (word, sample) in out.iter_mut().zip(samples) {
                *word = ieee::bits_of(*sample);
            }
            replay
                .counts
                .compare_answer(Ok(samples.len()), 0, self.samples);
            Ok(())
        }
    }

    // 1.0 and -2.5 by their bits, the least significant byte first.
    const SAMPLES: [u8; 8] = [0, 0, 0x80, 0x3f, 0, 0, 0x20, 0xc0];

    #[test]
    fn samples_are_read(rt: HostRuntime) -> Result<(), Fail> {
        let mut replay = Replay::new(&SAMPLES[..]);
        let samples = replay.samples(rt.alloc(), 2)?;
        assert_eq!(rt; samples.as_slice(), [1.0, -2.5].as_slice());
        assert!(rt; replay.counts.readable());
        Ok(())
    }

    // The mark, one case of two samples and three words, the samples, of the words theirs and one that is not the pattern, and a byte.
    const LIST: [u8; 37] = [
        0x0d, 0x0c, 0x0b, 0x0a, 1, 0, 0, 0, 2, 0, 0, 0, 3, 0, 0, 0, 0, 0, 0x80, 0x3f, 0, 0, 0x20,
        0xc0, 0, 0, 0x80, 0x3f, 0, 0, 0x20, 0xc0, 7, 0, 0, 0, 9,
    ];

    #[test]
    fn list_is_replayed(rt: HostRuntime) -> Result<(), Fail> {
        let counts = replay_held::<Bits>(rt.alloc(), &LIST[..])?;
        let want = Counts {
            in_the_file: 1,
            cases: 1,
            keypoints: 2,
            words: 3,
            words_differ: 1,
            left_over: 1,
            ..Counts::default()
        };
        assert_eq!(rt; counts, want);
        Ok(())
    }

    // The same case, which may be lent more.
    #[derive(Drop)]
    struct Wide {
        bits: Bits,
    }

    impl Case for Wide {
        const MARK: u32 = Bits::MARK;

        const MOST_ROOM: usize = 5000;

        fn read<R: Read + Drop>(replay: &mut Replay<R>) -> io::Result<Wide> {
            Ok(Wide {
                bits: Bits::read(replay)?,
            })
        }

        fn samples(&self) -> usize {
            self.bits.samples()
        }

        fn room(&self) -> usize {
            self.bits.room()
        }

        fn replay<R: Read + Drop>(
            &self,
            replay: &mut Replay<R>,
            samples: &[f32],
            out: &mut [u32],
        ) -> io::Result<()> {
            self.bits.replay(replay, samples, out)
        }
    }

    #[test]
    fn list_of_any_case_is_replayed(rt: HostRuntime) -> Result<(), Fail> {
        let counts = replay_list::<Wide>(rt.alloc(), &LIST[..])?;
        assert_eq!(rt; counts, replay_held::<Bits>(rt.alloc(), &LIST[..])?);
        Ok(())
    }

    // LIST, whose case asks for 4,097 words and then for 5,001. Of 4,097 the file has three, and of a fourth a byte.
    #[test]
    fn more_room_than_is_held(rt: HostRuntime) -> Result<(), Fail> {
        let mut list = LIST;
        list[12] = 0x01;
        list[13] = 0x10;
        let counts = replay_list::<Wide>(rt.alloc(), &list[..])?;
        let want = Counts {
            in_the_file: 1,
            cases: 1,
            keypoints: 2,
            words: 4097,
            words_differ: 4095,
            missing: 4094,
            ..Counts::default()
        };
        assert_eq!(rt; counts, want);
        list[12] = 0x89;
        list[13] = 0x13;
        let counts = replay_list::<Wide>(rt.alloc(), &list[..])?;
        let want = Counts {
            in_the_file: 1,
            unreadable: 1,
            left_over: 4,
            ..Counts::default()
        };
        assert_eq!(rt; counts, want);
        Ok(())
    }
}
