// The sheet: what a header tells, and the sizes that writer and reader go by. The format is in specs/, and its laws in proofs/.
#![tactic(auto)]

ghost use Rattle.std.specs.Prelude.{◌≤◌};

// What the reader tells of a sheet: how many records it has, and its edition, width, height and layers.
#[derive(Clone, Copy)]
pub struct Heading {
    pub count: usize,
    pub edition: u32,
    pub width: usize,
    pub height: usize,
    pub layers: usize,
}

// What the records of a sheet are held to: its width, height and layers. No side is 0.
#[derive(Clone, Copy)]
pub struct Frame {
    pub width: u64,
    pub height: u64,
    pub layers: u64,
    pub ghost sides: { (1 ≤ width) × (1 ≤ height) },
}

// The bytes of the header, and the most records that it counts.
pub const HEADER_BYTES: usize = 8;

pub const MAX_COUNT: usize = 1_048_575;

// The words that the reader gives for a record. Of these the whole numbers, they and the floats, and all but the blank word.
pub const READ_WORDS: usize = 139;

pub const HEAD_WORDS: usize = 5;

pub const FRONT_WORDS: usize = 10;

pub const PLAIN_WORDS: usize = 138;

// The values of a record.
pub const VALUES: usize = 128;
