// Judging at a replica: how a message's transaction stands here, and how a listed ask is judged. What a vote then changes and answers is the replica's.
#![tactic(auto)]

mod judge;
mod standings;

pub use judge::{judged, serials_of};
pub use standings::{enter, is_active, standing};

// What an ask's entries meet here: whether one of them bars a yes, and the rivals as a mask.
#[derive(Clone, Copy)]
struct Weighed {
    barred: bool,
    rivals: u16,
}

// How an ask is judged: whether the vote is no, and the rivals as a mask, whom a yes names.
#[derive(Clone, Copy)]
pub struct Verdict {
    pub no: bool,
    pub rivals: u16,
}

// Beside the states of an owner: a serial above the last, when that one is over, and when it is not.
pub const FRESH: u8 = 4;

pub const AHEAD: u8 = 5;
