// Replays cases that an independent program made (host/vectors/sheet.py says how they are laid out) through `write_sheet`, `read_sheet` and `make_record`, and says how many were
// tried and how many differ. What is lent is longer than the room and filled with a pattern, which has to stand behind the expected output.
#![tactic(auto)]

ghost use Rattle.std.specs.Prelude.{◌+◌, ◌≤◌};

use run_vectors::{LeftOver, Tally};
use std::alloc::{AllocError, Global};
use std::io::Read;
use std::{fmt, io};

// What is lent, in bytes or words: more than the three records of the largest case take, 8 + 3 × 154 bytes or 3 × 139 words.
const ROOM: usize = 512;
// No part of a case is longer, in bytes or words.
const MOST: usize = 1024;

const PATTERN_BYTE: u8 = 165;

const PATTERN_WORD: u32 = 0xa5a5_a5a5;

// The entry that a case is for.
#[derive(Clone, Copy, Debug, PartialEq, Eq)]
enum Entry {
    Writer,
    Reader,
    Maker,
}

const ENTRIES: [Entry; 3] = [Entry::Writer, Entry::Reader, Entry::Maker];

// A number that is no entry's.
#[derive(Clone, Copy, Debug, PartialEq, Eq)]
struct NoEntry;

impl TryFrom<u8> for Entry {
    type Error = NoEntry;

    fn try_from(kind: u8) -> Result<Entry, NoEntry> {
        match kind {
            1 => Ok(Entry::Writer),
            2 => Ok(Entry::Reader),
            3 => Ok(Entry::Maker),
            _ => Err(NoEntry),
        }
    }
}

impl fmt::Display for Entry {
    fn fmt<W: fmt::Write>(&self, f: &mut fmt::Formatter<W>) -> fmt::Result {
        f.write_str(match self {
            Entry::Writer => "write_sheet",
            Entry::Reader => "read_sheet",
            Entry::Maker => "make_record",
        })
    }
}

// A case's head.
#[derive(Clone, Copy, Debug)]
struct Case {
    kind: u8,
    number: u32,
    room: usize,
    given: usize,
    expected: usize,
    count: usize,
    width: usize,
    height: usize,
    layers: usize,
    edition: u32,
}

// Two and four bytes of a head from a place on, the most significant first.
fn half_at(h: &[u8; 40], at: usize) -> u16
    requires { at + 2 ≤ 40 }
{
    u16::from_be_bytes([h[at], h[at + 1]])
}

fn word_at(h: &[u8; 40], at: usize) -> u32
    requires { at + 4 ≤ 40 }
{
    u32::from_be_bytes([h[at], h[at + 1], h[at + 2], h[at + 3]])
}

fn size_at(h: &[u8; 40], at: usize) -> usize
    requires { at + 8 ≤ 40 }
{
    run_vectors::join(word_at(h, at), word_at(h, at + 4)) as usize
}

impl From<[u8; 40]> for Case {
    fn from(h: [u8; 40]) -> Case {
        Case {
            kind: h[0],
            number: u32::from(h[1]),
            room: half_at(&h, 2) as usize,
            given: half_at(&h, 4) as usize,
            expected: half_at(&h, 6) as usize,
            count: word_at(&h, 8) as usize,
            width: size_at(&h, 12),
            height: size_at(&h, 20),
            layers: size_at(&h, 28),
            edition: word_at(&h, 36),
        }
    }
}

// The words that bytes hold, the most significant byte first.
fn words_in(alloc: Global, bytes: &[u8]) -> Result<Vec<u32>, AllocError> {
    let mut words = Vec::new(alloc);
    for b in bytes.chunks_exact(4) {
        words.push(u32::from_be_bytes([b[0], b[1], b[2], b[3]]))?;
    }
    Ok(words)
}

// Whether what was lent is what is expected, as far as it goes, and then the pattern.
fn stands<T: PartialEq>(out: &[T], want: &[T], pattern: &T) -> bool {
    let n = want.len().min(out.len());
    (out[..n] == want[..n]) & out[n..].iter().all(|x| x == pattern)
}

// Whether the writer does what a case expects. More than the lent room is no case.
fn writer_agrees(alloc: Global, c: Case, given: &[u8], want: &[u8]) -> Result<bool, AllocError> {
    if (c.given > ROOM) | (c.room > ROOM) {
        return Ok(false);
    }
    let words = words_in(alloc, given)?;
    let mut out = [PATTERN_BYTE; ROOM];
    let a = sheet_write::write_sheet(
        c.edition,
        c.width,
        c.height,
        c.layers,
        &words,
        &mut out[..c.room],
    );
    Ok(
        (params::number_of(a) == c.number)
            & (params::count_of(a) == c.count)
            & stands(&out, want, &PATTERN_BYTE),
    )
}

fn reader_agrees(alloc: Global, c: Case, given: &[u8], want: &[u8]) -> Result<bool, AllocError> {
    if c.room > ROOM {
        return Ok(false);
    }
    let mut out = [PATTERN_WORD; ROOM];
    let answer = sheet_read::read_sheet(given, &mut out[..c.room]);
    let said = match answer {
        Ok(h) => {
            (c.number == 0)
                & (h.count == c.count)
                & (h.edition == c.edition)
                & (h.width == c.width)
                & (h.height == c.height)
                & (h.layers == c.layers)
        }
        Err(refusal) => {
            (refusal.number() == c.number)
                & (refusal.count() == c.count)
                & (c.edition == 0)
                & (c.width == 0)
                & (c.height == 0)
                & (c.layers == 0)
        }
    };
    Ok(said & stands(&out, &words_in(alloc, want)?, &PATTERN_WORD))
}

// A case of the maker of records has the keypoint's words, the oriented one's and the values by their bits, one after the other; their lengths and the samples stand where others have
// width, height and layers.
fn maker_agrees(alloc: Global, c: Case, given: &[u8], want: &[u8]) -> Result<bool, AllocError> {
    let words = words_in(alloc, given)?;
    if (words.len() > ROOM) | (c.room > ROOM) {
        return Ok(false);
    }
    if c.width > words.len() {
        return Ok(false);
    }
    let (keypoint, rest) = words.split_at(c.width);
    if c.height > rest.len() {
        return Ok(false);
    }
    let (oriented, values) = rest.split_at(c.height);
    let mut out = [PATTERN_WORD; ROOM];
    let answer = record::make_record(keypoint, oriented, values, c.layers, &mut out[..c.room]);
    let number = match answer {
        Ok(()) => 0,
        Err(refusal) => refusal.number(),
    };
    Ok((number == c.number) & stands(&out, &words_in(alloc, want)?, &PATTERN_WORD))
}

// The file's next n bytes, if it has as many.
fn load(alloc: Global, file: &mut impl Read, n: usize) -> io::Result<Option<Vec<u8>>>
    requires { n ≤ 4096 }
{
    let mut bytes = vec![in alloc; 0u8; n]?;
    let got = run_io::read_full(file, &mut bytes)?;
    Ok(if got == n { Some(bytes) } else { None })
}

// Whether a case, whose head is read, has both its parts and comes out as it expects.
fn agrees(alloc: Global, file: &mut impl Read, entry: Entry, c: Case) -> io::Result<bool> {
    if (c.given > MOST) | (c.expected > MOST) {
        return Ok(false);
    }
    let (n, m) = match entry {
        Entry::Writer => (4 * c.given, c.expected),
        Entry::Reader => (c.given, 4 * c.expected),
        Entry::Maker => (4 * c.given, 4 * c.expected),
    };
    let Some(given) = load(alloc, file, n)? else {
        return Ok(false);
    };
    let Some(want) = load(alloc, file, m)? else {
        return Ok(false);
    };
    Ok(match entry {
        Entry::Writer => writer_agrees(alloc, c, &given, &want)?,
        Entry::Reader => reader_agrees(alloc, c, &given, &want)?,
        Entry::Maker => maker_agrees(alloc, c, &given, &want)?,
    })
}

// What is counted: of each entry, and of what is none.
#[derive(Clone, Copy, Debug, Default)]
struct Counts {
    of: [Tally; 3],
    of_none: Tally,
}

// Replays cases until the file ends. The count of turns is more than any file here has.
fn replay(alloc: Global, file: &mut impl Read, counts: &mut Counts) -> io::Result<LeftOver> {
    for _ in 0..1_000_000u32 {
        let mut head = [0u8; 40];
        let got = run_io::read_full(file, &mut head)?;
        if got < 40 {
            return Ok(LeftOver(got));
        }
        let c = Case::from(head);
        match Entry::try_from(c.kind) {
            Ok(entry) => {
                let good = agrees(alloc, file, entry, c)?;
                counts.of[entry as usize].count(good);
            }
            Err(NoEntry) => counts.of_none.count(false),
        }
    }
    Ok(LeftOver(40))
}

fn main(rt: HostRuntime) -> io::Result<()> {
    let mut file = run_io::open_file(&rt, "cases.bin")?;
    let mut counts = Counts::default();
    let rest = replay(rt.alloc(), &mut file, &mut counts)?;
    for entry in ENTRIES {
        println!(rt; "{entry}: {} differ", counts.of[entry as usize])?;
    }
    println!(rt; "of no entry: {} differ", counts.of_none)?;
    println!(rt; "{rest}")
}
