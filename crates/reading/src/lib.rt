// A line of a scenario as it is read, and lines that are no steps: what is printed for them, and what they leave.
#![tactic(auto)]

mod notes;
mod reading;

pub use notes::{echo, heard, listing, passed};
pub use reading::{fresh, kept, next, noted, timed};
use script::Said;

// The longest line.
pub const LONGEST_LINE: usize = 160;

// A line that is being read, its bytes so far, its number, and whether a scenario runs; the clock, and how many numbers are listed.
#[derive(Clone, Copy)]
pub struct Reader {
    pub said: Said,
    pub text: [u8; LONGEST_LINE],
    pub long: usize,
    pub line: u64,
    pub going: bool,
    pub day: u32,
    pub minute: u16,
    pub listed: usize,
}

// What a byte of the input comes to: the reader after it, and how many bytes of output there are.
#[derive(Clone, Copy)]
pub struct Taken {
    pub reader: Reader,
    pub written: usize,
}
