// What a line of a scenario says, byte by byte, and the step that it names.
#![tactic(auto)]

mod line;
mod naming;

pub use line::{fresh, step};
pub use naming::parse;
use orders::Order;

// The most numbers of a line.
pub const MOST_NUMBERS: usize = 16;

// What the bytes of a line say so far.
#[derive(Clone, Copy)]
pub struct Said {
    // Where in the line the next byte is.
    pub part: u8,
    // The letters of the word as one number, and how many numbers are complete.
    pub word: u64,
    pub count: usize,
    // The number that is being read.
    pub value: u64,
    // The complete numbers, and zeros behind them.
    pub numbers: [u64; MOST_NUMBERS],
}

// What a line is: 0 it says nothing, 1 it is bad, 2 `blank` with its mask as the order's live mask, 3 a step, 4 `clock` with its day and its minute as the
// order's, 5 `list` with its numbers, 6 `hours`, `classes` or `batch`, a step that takes what is listed.
#[derive(Clone, Copy)]
pub struct Parsed {
    pub what: u8,
    pub order: Order,
    pub count: usize,
    pub numbers: [u64; MOST_NUMBERS],
}
