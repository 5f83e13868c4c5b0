// From the planes of an octave to a sheet, with no other program at hand: detection, orientation, descriptor, the maker of records, the sheet's writer and its reader, each by
// the proved entry.
// The file has 8 planes of 44 rows of 56 samples, by their bits, least significant byte first: the five difference planes, then the Gaussian planes of the layers 1 to 3
// (data/README.md says how they were made). What is printed: a line for each record as the reader gives it, and the sheet's bytes, the header first and then a record a line.
#![tactic(auto)]

ghost use Rattle.std.specs.Prelude.{◌≡◌, ◌/◌, ◌%◌, ◌<◌, ◌≤◌, length, vec_len, Ok, IfOk, IfSome};
ghost use Rattle.sheet.specs.Words.{read_words};
ghost use Rattle.run_extract.specs.Sizes.{most_found, most_peaks, most_records, records_words, sheet_bytes, picture_samples, columns};

use params::{Refusal, Settings};
use picture::{Shape, Size, Spot};
use run_replay::Replay;
use std::alloc::Global;
use std::{fmt, io};

const EDITION: u32 = 2;

const WIDTH: usize = 56;

const HEIGHT: usize = 44;

const LAYERS: usize = 3;

const PLANES: usize = 5;

// The samples of a plane, 44 × 56, and those of the difference planes and of the Gaussian planes.
const PLANE: usize = 2464;

const DIFFERENCES: usize = 12320;

const GAUSSIANS: usize = 7392;

// The words of a keypoint, an oriented keypoint and a record, and the bytes of a header and of a record in a sheet.
const KEYPOINT: usize = 10;

const ORIENTED: usize = 6;

const RECORD: usize = 139;

const HEADER_BYTES: usize = 8;

const RECORD_BYTES: usize = 154;

// The words of 32 keypoints, the most that a layer's list has room for; of 18 oriented keypoints, the most that a keypoint has; and of 64 records, the most that there is room for,
// with the bytes of their sheet. The coast of the file has 18 records, and the program says so where there are more.
const FOUND: usize = 320;

const TURNED: usize = 108;

const MOST: usize = 64;

const RECORDS: usize = 8896;

const SHEET: usize = 9864;

const SIZE: Size = Size {
    width: WIDTH,
    height: HEIGHT,
};

const SHAPE: Shape = Shape {
    width: WIDTH,
    height: HEIGHT,
    planes: PLANES,
};

const SETTINGS: Settings = Settings {
    contrast: 0.04,
    edge: 10.0,
    sigma: 1.6,
    layers: LAYERS,
};

// The value of an answer; a refusal is told, and gives none.
fn told<T>(rt: &impl Print, stage: &str, answer: Result<T, Refusal>) -> io::Result<Option<T>>
    ensures { IfOk result (λ given. IfSome given (λ value. answer ≡ Ok value)) }
{
    match answer {
        Ok(value) => return Ok(Some(value)),
        Err(Refusal::Room(_)) => println!(rt; "{stage} has too little room")?,
        Err(refusal) => println!(rt; "{stage} refuses with number {}", refusal.number())?,
    }
    Ok(None)
}

// ---- records

// What records are made of, and their words as far as they are made: those of whole records, of no more than there is room for.
#[derive(Drop)]
struct Extract<'a, P> {
    rt: &'a P,
    alloc: Global,
    differences: &'a [f32],
    gaussians: &'a [f32],
    records: Vec<u32>,
    ghost pictures: { length gaussians.now ≡ picture_samples },
    ghost whole: { vec_len records % read_words ≡ 0 },
    ghost within: { vec_len records ≤ records_words },
}

// The bits of the 128 values of an oriented keypoint of octave 0, and the samples that they were made of.
fn describe(picture: &[f32], oriented: &[u32], values: &mut [u32]) -> Result<usize, Refusal> {
    let spot = descriptor_inputs::descriptor_inputs(words::oriented_in(oriented), 0)?;
    descriptor::compute_descriptor(picture, SIZE, spot, values)
}

// Which of the three pictures is a layer's.
fn picture_of(layer: u32) -> usize
    ensures { result ≤ 2 }
{
    match layer {
        1 => 0,
        2 => 1,
        _ => 2,
    }
}

impl<P: Print> Extract<'_, P> {
    // Adds the record of a keypoint, its direction and its descriptor. What is refused is told, and adds none.
    fn add_made(
        &mut self,
        keypoint: &[u32],
        oriented: &[u32],
        values: &[u32],
        samples: usize,
    ) -> io::Result<()>
        requires { vec_len self.old.records / read_words < most_records }
    {
        let mut made = [0u32; RECORD];
        let answer = record::make_record(keypoint, oriented, values, samples, &mut made);
        if told(self.rt, "the maker of records", answer)?.is_some() {
            self.records.extend_from_slice(&made)?;
        }
        Ok(())
    }

    // Adds the record of a keypoint's direction, if there is room for one more.
    fn add_direction(
        &mut self,
        picture: &[f32],
        keypoint: &[u32],
        oriented: &[u32],
    ) -> io::Result<()> {
        if self.records.len() / RECORD >= MOST {
            return println!(self.rt; "more records than there is room for");
        }
        let mut values = [0u32; 128];
        let described = describe(picture, oriented, &mut values);
        match told(self.rt, "the descriptor", described)? {
            Some(samples) => self.add_made(keypoint, oriented, &values, samples),
            None => Ok(()),
        }
    }

    // Adds the records of so many directions of a keypoint.
    fn add_directions(
        &mut self,
        picture: &[f32],
        keypoint: &[u32],
        out: &[u32; TURNED],
        count: usize,
    ) -> io::Result<()>
        requires { count ≤ most_peaks }
    {
        for direction in out[..ORIENTED * count].chunks_exact(ORIENTED) {
            self.add_direction(picture, keypoint, direction)?;
        }
        Ok(())
    }

    // Adds the records of a keypoint. Its picture is the plane of the layer where it settled, which may be another than the one searched.
    fn add_keypoint(&mut self, keypoint: &[u32]) -> io::Result<()> {
        let k = words::keypoint_in(keypoint);
        let from = PLANE * picture_of(k.layer);
        let picture = &self.gaussians[from..from + PLANE];
        let mut out = [0u32; TURNED];
        let answer = orient::assign_orientations(picture, SIZE, k, &mut out);
        if let Some(oriented) = told(self.rt, "orientation", answer)? {
            self.add_directions(picture, keypoint, &out, oriented.count)?;
        }
        Ok(())
    }

    // Adds the records of so many keypoints.
    fn add_found(&mut self, found: &[u32; FOUND], count: usize) -> io::Result<()>
        requires { count ≤ most_found }
    {
        for keypoint in found[..KEYPOINT * count].chunks_exact(KEYPOINT) {
            self.add_keypoint(keypoint)?;
        }
        Ok(())
    }

    // Searches a layer, and adds the records of what is found there.
    fn add_layer(&mut self, layer: usize) -> io::Result<()> {
        let mut found = [0u32; FOUND];
        let answer = detect::find_extrema(self.differences, SHAPE, layer, 0, SETTINGS, &mut found);
        if let Some(count) = told(self.rt, "detection", answer)? {
            self.add_found(&found, count)?;
        }
        Ok(())
    }
}

// ---- the sheet

// A number of hundredths, as one of units.
#[derive(Clone, Copy)]
struct Hundredths(u32);

impl fmt::Display for Hundredths {
    fn fmt<W: fmt::Write>(&self, f: &mut fmt::Formatter<W>) -> fmt::Result {
        let n = self.0;
        write!(f, "{}.{:02}", n / 100, n % 100)
    }
}

// A float of at least 0, by its bits, as so many parts of 1: the nearest whole number, 0 for what is below.
fn parts(bits: u32, of_one: f32) -> u32 {
    ieee_whole::round_to_i32(ieee::of_bits(bits) * of_one)
        .max(0)
        .cast_unsigned()
}

// A record as a line of the table: the whole numbers, the floats, the largest of the values, and the blank word.
#[derive(Clone, Copy)]
struct Line<'a>(&'a [u32; RECORD]);

impl fmt::Display for Line<'_> {
    fn fmt<W: fmt::Write>(&self, f: &mut fmt::Formatter<W>) -> fmt::Result {
        let row = self.0;
        let hundredths = |column: usize| -> Hundredths
            requires { column < columns }
        { Hundredths(parts(row[column], 100.0)) };
        let largest = row[10..138].iter().copied().max().unwrap_or(0);
        write!(
            f,
            "{}\t{}\t{}\t{}\t{}\t",
            row[0], row[1], row[2], row[3], row[4]
        )?;
        write!(
            f,
            "{}\t{}\t{}\t",
            hundredths(5),
            hundredths(6),
            hundredths(7)
        )?;
        write!(f, "{}\t{}\t", parts(row[8], 100000.0), hundredths(9))?;
        write!(f, "{}\t{}", largest, row[138])
    }
}

const COLUMNS: &str =
    "row\tcolumn\toctave\tlayer\tcode\tx\ty\tsize\tresponse x 100000\tangle\tlargest value\tblank";

fn print_bytes(rt: &impl Print, bytes: &[u8]) -> io::Result<()> {
    for byte in bytes {
        print!(rt; "{byte:02x}")?;
    }
    println!(rt; "")
}

fn print_table(rt: &impl Print, words: &[u32], count: usize) -> io::Result<()>
    requires words { length words.now ≡ records_words }
    requires count { count ≤ most_records }
{
    println!(rt; "{COLUMNS}")?;
    let (rows, _) = words.as_chunks::<RECORD>();
    for row in &rows[..count] {
        println!(rt; "{}", Line(row))?;
    }
    Ok(())
}

fn print_sheet(rt: &impl Print, sheet: &[u8], count: usize) -> io::Result<()>
    requires sheet { length sheet.now ≡ sheet_bytes }
    requires count { count ≤ most_records }
{
    let (header, rest) = sheet.split_at(HEADER_BYTES);
    print_bytes(rt, header)?;
    for record in rest[..RECORD_BYTES * count].chunks_exact(RECORD_BYTES) {
        print_bytes(rt, record)?;
    }
    Ok(())
}

// The sheet of records, and how many bytes it has.
fn write(rt: &impl Print, records: &[u32], sheet: &mut [u8]) -> io::Result<usize>
    requires { length sheet.old ≡ sheet_bytes }
    ensures { IfOk result (λ size. size ≤ sheet_bytes) }
{
    let answer = sheet_write::write_sheet(EDITION, WIDTH, HEIGHT, LAYERS, records, sheet);
    match told(rt, "the writer", answer)? {
        Some(size) => Ok(size),
        None => Ok(0),
    }
}

// The records of a sheet, and how many there are.
fn read(rt: &impl Print, sheet: &[u8], words: &mut [u32]) -> io::Result<usize>
    requires { length words.old ≡ records_words }
    ensures { IfOk result (λ count. count ≤ most_records) }
{
    match told(rt, "the reader", sheet_read::read_sheet(sheet, words))? {
        Some(heading) => Ok(heading.count),
        None => Ok(0),
    }
}

// Writes the sheet, reads it back and prints both.
fn show(rt: &impl Print, alloc: Global, records: &[u32]) -> io::Result<()> {
    let mut sheet = vec![in alloc; 0u8; SHEET]?;
    let size = write(rt, records, &mut sheet)?;
    let mut words = vec![in alloc; 0u32; RECORDS]?;
    let count = read(rt, &sheet[..size], &mut words)?;
    print_table(rt, &words, count)?;
    print_sheet(rt, &sheet, count)
}

// The whole way: the records by the layer searched, in each as detection lists the keypoints and orientation their directions.
fn main(rt: HostRuntime) -> io::Result<()> {
    let alloc = rt.alloc();
    let mut replay = Replay::new(run_io::open_file(&rt, "planes.bin")?);
    let differences = replay.samples(alloc, DIFFERENCES)?;
    let gaussians = replay.samples(alloc, GAUSSIANS)?;
    if !replay.counts.readable() {
        return println!(rt; "the file is too short");
    }
    let mut extract = Extract {
        rt: &rt,
        alloc,
        differences: &differences,
        gaussians: &gaussians,
        records: Vec::new(alloc),
    };
    for layer in 1..=LAYERS {
        extract.add_layer(layer)?;
    }
    show(&rt, alloc, &extract.records)
}
