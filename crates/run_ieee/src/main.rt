// Replays vectors that an independent C program made (host/vectors/ieee.c) through the public functions of `ieee`, and says of each operation how many were tried and how
// many differ. A record is five words of 32 bits, most significant byte first: the operation, three operands and the answer, floats by their bits.
#![tactic(auto)]

use run_vectors::{Record, Tally};
use std::{fmt, io};

// What is asked, by its number in a record, from 1.
#[derive(Clone, Copy, Debug, PartialEq, Eq)]
enum Operation {
    MulAdd,
    Sqrt,
    Narrow,
    Floor,
    Round,
    ToI32,
    Abs,
    Bits,
    Length,
    FloorToI32,
    RoundToI32,
}

const OPERATIONS: [Operation; 11] = [
    Operation::MulAdd,
    Operation::Sqrt,
    Operation::Narrow,
    Operation::Floor,
    Operation::Round,
    Operation::ToI32,
    Operation::Abs,
    Operation::Bits,
    Operation::Length,
    Operation::FloorToI32,
    Operation::RoundToI32,
];

// A number that is no operation's.
#[derive(Clone, Copy, Debug, PartialEq, Eq)]
struct NoOperation;

impl TryFrom<u32> for Operation {
    type Error = NoOperation;

    fn try_from(number: u32) -> Result<Operation, NoOperation> {
        match number {
            1 => Ok(Operation::MulAdd),
            2 => Ok(Operation::Sqrt),
            3 => Ok(Operation::Narrow),
            4 => Ok(Operation::Floor),
            5 => Ok(Operation::Round),
            6 => Ok(Operation::ToI32),
            7 => Ok(Operation::Abs),
            8 => Ok(Operation::Bits),
            9 => Ok(Operation::Length),
            10 => Ok(Operation::FloorToI32),
            11 => Ok(Operation::RoundToI32),
            _ => Err(NoOperation),
        }
    }
}

impl fmt::Display for Operation {
    fn fmt<W: fmt::Write>(&self, f: &mut fmt::Formatter<W>) -> fmt::Result {
        f.write_str(match self {
            Operation::MulAdd => "fused multiply-add",
            Operation::Sqrt => "square root",
            Operation::Narrow => "narrowing",
            Operation::Floor => "floor",
            Operation::Round => "rounding",
            Operation::ToI32 => "to i32",
            Operation::Abs => "absolute value",
            Operation::Bits => "bits",
            Operation::Length => "length",
            Operation::FloorToI32 => "floor to i32",
            Operation::RoundToI32 => "rounding to i32",
        })
    }
}

// Whether an operation has the answer that a record wants.
fn agrees(operation: Operation, r: Record) -> bool {
    let x = ieee::of_bits(r.a);
    let y = ieee::of_bits(r.b);
    let want = r.d;
    match operation {
        Operation::MulAdd => ieee::bits_of(ieee_fused::mul_add(x, y, ieee::of_bits(r.c))) == want,
        Operation::Sqrt => ieee::bits_of(ieee_root::sqrt(x)) == want,
        Operation::Narrow => {
            ieee::bits_of(ieee_fused::narrow(ieee::of_bits64(run_vectors::join(r.a, r.b)))) == want
        }
        Operation::Floor => ieee::bits_of(ieee_whole::floor(x)) == want,
        Operation::Round => ieee::bits_of(ieee_whole::round_ties_even(x)) == want,
        Operation::ToI32 => ieee_whole::to_i32(x).cast_unsigned() == want,
        Operation::Abs => ieee::bits_of(ieee::abs(x)) == want,
        Operation::Bits => ieee::bits_of(x) == want,
        Operation::Length => ieee::bits_of(ieee_length::length(x, y)) == want,
        Operation::FloorToI32 => ieee_whole::floor_to_i32(x).cast_unsigned() == want,
        Operation::RoundToI32 => ieee_whole::round_to_i32(x).cast_unsigned() == want,
    }
}

// What is counted: of each operation, of what is none, and of all.
#[derive(Clone, Copy, Debug, Default)]
struct Counts {
    of: [Tally; 11],
    of_none: Tally,
    all: Tally,
}

impl run_vectors::Counts for Counts {
    fn take(&mut self, r: Record) {
        let good = match Operation::try_from(r.op) {
            Ok(operation) => {
                let good = agrees(operation, r);
                self.of[operation as usize].count(good);
                good
            }
            Err(NoOperation) => {
                self.of_none.count(false);
                false
            }
        };
        self.all.count(good);
    }
}

fn main(rt: HostRuntime) -> io::Result<()> {
    let mut file = run_io::open_file(&rt, "vectors.bin")?;
    let mut counts = Counts::default();
    let rest = run_vectors::replay(&mut file, &mut counts)?;
    for operation in OPERATIONS {
        println!(rt; "{operation}: {} differ", counts.of[operation as usize])?;
    }
    println!(rt; "of no operation: {} differ", counts.of_none)?;
    println!(rt; "all: {} differ", counts.all)?;
    println!(rt; "{rest}")
}
