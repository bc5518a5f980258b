// Messages: bytes checked and read in place. The tests of a message's counts, header, entries and rivals are for its writers too.
#![tactic(auto)]

mod read;
mod verify;

pub use read::{entries, from, kind, nth_entry, nth_rival, owner, rivals, serial, stamp, to, word};
pub use verify::{above, check, counts_ok, entry_fits, entry_ok, has_length, head_ok, rival_ok};

// One object of a message (document 01: tally): which, in which mode (0 read, 1 write), the version and the value.
#[repr(C)]
#[derive(Clone, Copy)]
pub struct Entry {
    pub object: u8,
    pub mode: u8,
    pub version: u32,
    pub value: u64,
}

// One rival: the owner and serial of another transaction.
#[derive(Clone, Copy)]
pub struct Rival {
    pub owner: u8,
    pub serial: u32,
}

// The header of a message: kind, from, to, and the transaction that it speaks of.
#[derive(Clone, Copy)]
pub struct Head {
    pub kind: u8,
    pub from: u8,
    pub to: u8,
    pub owner: u8,
    pub serial: u32,
    pub stamp: u32,
}

// Sizes in bytes: the header, an entry, a rival.
pub const HEADER: usize = 12;

pub const ENTRY: usize = 14;

pub const RIVAL: usize = 5;

// The kinds.
pub const FETCH: u8 = 1;

pub const COPY: u8 = 2;

pub const ASK: u8 = 3;

pub const VOTE: u8 = 4;

pub const OUTCOME: u8 = 5;

pub const DONE: u8 = 6;

pub const YIELD: u8 = 7;
