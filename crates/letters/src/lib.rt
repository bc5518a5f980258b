// Messages written into lent bytes.
#![tactic(auto)]

mod write;

pub use write::{
    write_ask, write_copy, write_done, write_fetch, write_outcome, write_vote, write_yield,
};

// What a writer answers: a number, and how many bytes it filled.
#[repr(C)]
#[derive(Clone, Copy)]
pub struct Written {
    pub number: u8,
    pub length: u8,
}
