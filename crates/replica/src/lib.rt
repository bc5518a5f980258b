// A replica (document 01: copy end): answers fetches, asks and outcomes, and keeps its image.
#![tactic(auto)]

mod answer;
mod change;
mod delivery;
mod steps;

pub use delivery::{answers, receive};

// What a delivery answers: a number, and how many bytes of the buffer the answer fills.
#[repr(C)]
#[derive(Clone, Copy)]
pub struct Received {
    pub number: u8,
    pub length: u8,
}
