// What the programs share that go through the vectors of an independent program: records of five words, most significant byte first, and what is counted of them.
#![tactic(auto)]

ghost use Rattle.std.specs.Prelude.{◌≡◌, ◌+◌, ◌*◌, ◌%◌, ◌^◌, ◌<◌, ◌≤◌, cond, IfOk, IfErr};
ghost use Rattle.std.specs.Io.KnownBytes.{IsAtEnd};

use std::io::Read;
use std::{fmt, io};

// What is asked, and four words.
#[derive(Clone, Copy, Debug, PartialEq, Eq)]
pub struct Record {
    pub op: u32,
    pub a: u32,
    pub b: u32,
    pub c: u32,
    pub d: u32,
}

impl From<[u8; 20]> for Record {
    fn from(s: [u8; 20]) -> Record {
        Record {
            op: u32::from_be_bytes([s[0], s[1], s[2], s[3]]),
            a: u32::from_be_bytes([s[4], s[5], s[6], s[7]]),
            b: u32::from_be_bytes([s[8], s[9], s[10], s[11]]),
            c: u32::from_be_bytes([s[12], s[13], s[14], s[15]]),
            d: u32::from_be_bytes([s[16], s[17], s[18], s[19]]),
        }
    }
}

// No record, but so many bytes at the end of the file.
#[derive(Clone, Copy, Debug, PartialEq, Eq)]
pub struct LeftOver(pub usize);

impl fmt::Display for LeftOver {
    fn fmt<W: fmt::Write>(&self, f: &mut fmt::Formatter<W>) -> fmt::Result {
        write!(f, "bytes left over: {}", self.0)
    }
}

// The file's next record, or what is left over.
pub fn next<R: Read>(file: &mut R) -> io::Result<Result<Record, LeftOver>>
    ensures { IfOk result (λ r. IfErr r (λ rest. (rest.0 < 20) × IsAtEnd (R.remaining file.new))) }
{
    let mut bytes = [0u8; 20];
    let got = run_io::read_full(file, &mut bytes)?;
    if got < 20 {
        return Ok(Err(LeftOver(got)));
    }
    Ok(Ok(Record::from(bytes)))
}

// The 64 bits of two words.
pub fn join(high: u32, low: u32) -> u64
    ensures { result ≡ high * 2 ^ 32 + low }
{
    u64::from(high) * 0x1_0000_0000 + u64::from(low)
}

// How many were tried, and how many of these were not as they have to be.
#[derive(Clone, Copy, Debug, Default, PartialEq, Eq)]
pub struct Tally {
    pub tried: u64,
    pub wrong: u64,
}

impl Tally {
    pub fn count(&mut self, good: bool)
        ensures tried { self.new.tried ≡ (self.old.tried + 1) % 2 ^ 64 }
        ensures wrong { self.new.wrong ≡ cond good self.old.wrong ((self.old.wrong + 1) % 2 ^ 64) }
    {
        self.tried = self.tried.wrapping_add(1);
        if !good {
            self.wrong = self.wrong.wrapping_add(1);
        }
    }
}

impl fmt::Display for Tally {
    fn fmt<W: fmt::Write>(&self, f: &mut fmt::Formatter<W>) -> fmt::Result {
        write!(f, "{} tried, {}", self.tried, self.wrong)
    }
}

// What a program counts of the records that it goes through.
pub trait Counts {
    fn take(&mut self, r: Record);
}

// Goes through the records of a file until it ends. The count of turns is more than any file here has.
pub fn replay<C: Counts>(file: &mut impl Read, counts: &mut C) -> io::Result<LeftOver>
    ensures { IfOk result (λ rest. rest.0 ≤ 20) }
{
    for _ in 0..10_000_000u32 {
        match next(file)? {
            Ok(record) => counts.take(record),
            Err(rest) => return Ok(rest),
        }
    }
    Ok(LeftOver(20))
}
