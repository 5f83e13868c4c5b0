// Settings, what an entry answers, and the tests of the refusal table that more than one entry makes.
#![tactic(auto)]

ghost use Rattle.std.specs.Prelude.{◌≡◌};
ghost use Rattle.params.specs.Table.{shape_wrong, layers_wrong, within, contrast_wrong, settings_wrong};
ghost use Rattle.params.specs.Answers.{count_of, refusal_number, refusal_count, told, fault_told};

// What a frame is searched with.
#[derive(Clone, Copy)]
pub struct Settings {
    pub contrast: f64,
    pub edge: f64,
    pub sigma: f64,
    pub layers: usize,
}

// Why an entry refuses, by the lines of the table of refusals; a lack of room tells the count needed.
#[derive(Clone, Copy, Debug, PartialEq, Eq)]
pub enum Refusal {
    Shape,
    Layers,
    Length,
    Settings,
    Fields,
    Samples,
    Room(usize),
    Sheet,
}

impl Refusal {
    // Its number in the table (rule A2).
    pub fn number(self) -> u32
        ensures { result ≡ refusal_number self }
    {
        match self {
            Refusal::Shape => 1,
            Refusal::Layers => 2,
            Refusal::Length => 3,
            Refusal::Settings => 4,
            Refusal::Fields => 5,
            Refusal::Samples => 6,
            Refusal::Room(_) => 7,
            Refusal::Sheet => 8,
        }
    }

    // The count beside it (rule A17).
    pub fn count(self) -> usize
        ensures { result ≡ refusal_count self }
    {
        match self {
            Refusal::Room(n) => n,
            _ => 0,
        }
    }
}

// The longest side.
pub const MAX_SIDE: usize = 8192;

pub const MAX_LAYERS: usize = 15;

// A keypoint goes out as so many words.
pub const KEYPOINT_WORDS: usize = 10;

const MAX_PLANES: usize = 17;

const MAX_OCTAVE: u32 = 15;

// Number 1, rule A4.
pub fn shape_wrong(width: usize, height: usize) -> bool
    ensures { result ≡ shape_wrong width height }
{
    ((width == 0) | (width > MAX_SIDE)) | ((height == 0) | (height > MAX_SIDE))
}

// Number 2, rule A5. The layers are held to their limit first, so that the sum of layers and 2 does not wrap.
pub fn layers_wrong(planes: usize, layer: usize, layers: usize) -> bool
    ensures { result ≡ layers_wrong planes layer layers }
{
    if layers > MAX_LAYERS {
        return true;
    }
    !((1 <= layer) & ((layer <= layers) & (layers + 2 <= planes))) | (planes > MAX_PLANES)
}

// Whether x lies from low to high. No not-a-number does.
fn is_within(low: f64, high: f64, x: f64) -> bool
    ensures { result ≡ within low high x }
{
    (low <= x) & (x <= high)
}

// Number 4, of the contrast: rule A7.
pub fn contrast_wrong(contrast: f64) -> bool
    ensures { result ≡ contrast_wrong contrast }
{
    !is_within(0.0, 1.0, contrast)
}

// Number 4, of all settings and the octave: rule A7.
pub fn settings_wrong(s: Settings, octave: u32) -> bool
    ensures { result ≡ settings_wrong s octave }
{
    contrast_wrong(s.contrast)
        | (!is_within(1.0, 1000.0, s.edge)
            | (!is_within(0.5, 16.0, s.sigma) | (octave > MAX_OCTAVE)))
}

// The number of an answer (rule A2), 0 where it is given.
pub fn number_of<T: Drop>(answer: Result<T, Refusal>) -> u32
    ensures { result ≡ fault_told answer }
{
    match answer {
        Ok(_) => 0,
        Err(refusal) => refusal.number(),
    }
}

// The count beside it (rule A17).
pub fn count_of(answer: Result<usize, Refusal>) -> usize
    ensures { result ≡ count_of (told answer) }
{
    match answer {
        Ok(n) => n,
        Err(refusal) => refusal.count(),
    }
}
