// Holds the routines to the true values that an independent program worked out (host/vectors/hal.py): the angle within 0.01 degree, the others within 2^-16 of the value,
// sine and cosine of 1. Says of each routine how many points were tried and how many lie outside the bound. A record is five words of 32 bits, most significant byte first:
// what is asked, x and y by their f32 bits, and the value as an f64's bits.
#![tactic(auto)]

use run_vectors::{Record, Tally};
use std::{fmt, io};

// What is asked of the routines: a value, or that there is none.
#[derive(Clone, Copy, Debug, PartialEq, Eq)]
enum Question {
    Exp2,
    Exp,
    Sine,
    Cosine,
    Angle,
    Magnitude,
    TinyMagnitude,
    OutsideExp2,
    OutsideExp,
    OutsideSine,
    OutsideCosine,
    OutsideAngle,
    OutsideMagnitude,
}

const QUESTIONS: [Question; 13] = [
    Question::Exp2,
    Question::Exp,
    Question::Sine,
    Question::Cosine,
    Question::Angle,
    Question::Magnitude,
    Question::TinyMagnitude,
    Question::OutsideExp2,
    Question::OutsideExp,
    Question::OutsideSine,
    Question::OutsideCosine,
    Question::OutsideAngle,
    Question::OutsideMagnitude,
];

// A number by which nothing is asked.
#[derive(Clone, Copy, Debug, PartialEq, Eq)]
struct NoQuestion;

impl TryFrom<u32> for Question {
    type Error = NoQuestion;

    fn try_from(number: u32) -> Result<Question, NoQuestion> {
        match number {
            1 => Ok(Question::Exp2),
            2 => Ok(Question::Exp),
            3 => Ok(Question::Sine),
            4 => Ok(Question::Cosine),
            5 => Ok(Question::Angle),
            6 => Ok(Question::Magnitude),
            7 => Ok(Question::TinyMagnitude),
            9 => Ok(Question::OutsideExp2),
            10 => Ok(Question::OutsideExp),
            11 => Ok(Question::OutsideSine),
            12 => Ok(Question::OutsideCosine),
            13 => Ok(Question::OutsideAngle),
            14 => Ok(Question::OutsideMagnitude),
            _ => Err(NoQuestion),
        }
    }
}

impl fmt::Display for Question {
    fn fmt<W: fmt::Write>(&self, f: &mut fmt::Formatter<W>) -> fmt::Result {
        f.write_str(match self {
            Question::Exp2 => "exp2",
            Question::Exp => "exp",
            Question::Sine => "sine",
            Question::Cosine => "cosine",
            Question::Angle => "angle",
            Question::Magnitude => "magnitude",
            Question::TinyMagnitude => "tiny magnitude",
            Question::OutsideExp2 => "outside exp2's range",
            Question::OutsideExp => "outside exp's range",
            Question::OutsideSine => "outside the sine's range",
            Question::OutsideCosine => "outside the cosine's range",
            Question::OutsideAngle => "outside the angle's range",
            Question::OutsideMagnitude => "outside the magnitude's range",
        })
    }
}

// What is said of the answers that are not good.
fn complaint(question: Question) -> &'static str {
    match question {
        Question::Exp2
        | Question::Exp
        | Question::Sine
        | Question::Cosine
        | Question::Angle
        | Question::Magnitude => "outside the bound",
        Question::TinyMagnitude => "not the root of the fused sum",
        _ => "answered with a number",
    }
}

// The size of a - b: a not-a-number where either is one, which no bound holds.
fn apart(a: f64, b: f64) -> f64 {
    if a < b { b - a } else { a - b }
}

// Within 2^-16 of the value v, which is not negative.
fn near(r: f64, v: f64) -> bool {
    apart(r, v) <= v * 0.0000152587890625
}

// Within 2^-16 of 1.
fn near_one(r: f64, v: f64) -> bool {
    apart(r, v) <= 0.0000152587890625
}

// Within 0.01 degree, over the wrap from 360 to 0 too.
fn near_turn(r: f64, v: f64) -> bool {
    let d = apart(r, v);
    if d > 180.0 {
        360.0 - d <= 0.01
    } else {
        d <= 0.01
    }
}

fn number(x: f32) -> f64 {
    std::num::f32_to_f64_with_nan(x)
}

// Whether the answer to a question is good.
fn is_good(question: Question, x: f32, y: f32, v: f64) -> bool {
    match question {
        Question::Exp2 => near(number(hal::exp2(x)), v),
        Question::Exp => near(number(hal::exp(x)), v),
        Question::Sine => near_one(number(hal_turn::sin(x)), v),
        Question::Cosine => near_one(number(hal_turn::cos(x)), v),
        Question::Angle => near_turn(number(hal_angle::angle(x, y)), v),
        Question::Magnitude => near(number(hal_magnitude::magnitude(x, y)), v),
        Question::TinyMagnitude => number(hal_magnitude::magnitude(x, y)) == v,
        Question::OutsideExp2 => hal::exp2(x).is_nan(),
        Question::OutsideExp => hal::exp(x).is_nan(),
        Question::OutsideSine => hal_turn::sin(x).is_nan(),
        Question::OutsideCosine => hal_turn::cos(x).is_nan(),
        Question::OutsideAngle => hal_angle::angle(x, y).is_nan(),
        Question::OutsideMagnitude => hal_magnitude::magnitude(x, y).is_nan(),
    }
}

// What is counted: of each question, and of what is none.
#[derive(Clone, Copy, Debug, Default)]
struct Counts {
    of: [Tally; 13],
    of_none: Tally,
}

impl run_vectors::Counts for Counts {
    fn take(&mut self, r: Record) {
        match Question::try_from(r.op) {
            Ok(question) => {
                let value = ieee::of_bits64(run_vectors::join(r.c, r.d));
                let good = is_good(question, ieee::of_bits(r.a), ieee::of_bits(r.b), value);
                self.of[question as usize].count(good);
            }
            Err(NoQuestion) => self.of_none.count(false),
        }
    }
}

fn main(rt: HostRuntime) -> io::Result<()> {
    let mut file = run_io::open_file(&rt, "points.bin")?;
    let mut counts = Counts::default();
    let rest = run_vectors::replay(&mut file, &mut counts)?;
    for question in QUESTIONS {
        let tally = counts.of[question as usize];
        println!(rt; "{question}: {tally} {}", complaint(question))?;
    }
    println!(rt; "of no routine: {} of them", counts.of_none)?;
    println!(rt; "{rest}")
}
