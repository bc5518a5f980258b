// A node's own transaction (document 01: the booking end): a record by value, and the host's calls. `booking` runs these steps on a record that is lent,
// and the definitions here are what every call must meet. A call from C works on the record's bytes instead, in `record_calls`.
#![tactic(auto)]

mod calls;
mod common;
mod objects;

pub use calls::{
    abort, awaited_by, begin, blank, contacted_after, found, open_read, open_write, request_commit,
    reselect, set_value, with_aborted, with_object,
};
pub use common::idle_with;
use numbers::{MOST_OPEN, NODES};
pub use objects::{all_settled, any_used_up, at_index, at_place, is_ready, place};

// The phases.
pub const IDLE: u8 = 0;

pub const OPEN: u8 = 1;

pub const VOTING: u8 = 2;

pub const FINISHING: u8 = 3;

// What a delivery brought about; the second and third are a transaction's outcomes too, and 0 is none yet.
pub const NOTHING: u8 = 0;

pub const COMMITTED: u8 = 1;

pub const ABORTED: u8 = 2;

pub const READY: u8 = 3;

pub const FINISHED: u8 = 4;

// One opened object (document 01: tally): which, in which mode (0 read, 1 write), the nodes whose copies came, the version and value found,
// whether a new value was given, and that value.
#[derive(Clone, Copy)]
pub struct Object {
    pub object: u8,
    pub mode: u8,
    pub came: u16,
    pub version: u32,
    pub value: u64,
    pub given: bool,
    pub new: u64,
}

// A blank object: it stands at each place that no object was opened at.
pub const NO_OBJECT: Object = Object {
    object: 0,
    mode: 0,
    came: 0,
    version: 0,
    value: 0,
    given: false,
    new: 0,
};

// The record. The lasting part: the last serial and timestamp, the last outcome. The rest is the transaction, blank while idle: its phase; the
// live nodes and distances last given; the present read quorum; the contacted nodes; how many objects are open, in the order of opening; the
// participants, who voted yes, who said done; for each owner the highest serial of a rival that was named, 0 for none.
#[derive(Clone, Copy)]
pub struct Coordinator {
    pub serial: u32,
    pub timestamp: u32,
    pub outcome: u8,
    pub phase: u8,
    pub live: u16,
    pub distances: [u16; NODES],
    pub quorum: u16,
    pub contacted: u16,
    pub count: usize,
    pub objects: [Object; MOST_OPEN],
    pub participants: u16,
    pub yes: u16,
    pub done: u16,
    pub rivals: [u32; NODES],
}

// What the host gives at begin.
#[derive(Clone, Copy)]
pub struct BeginWith {
    pub live: u16,
    pub distances: [u16; NODES],
    pub timestamp: u32,
}

// What a call that is taken gives: its answer (0 where there is none), and the record after it.
#[derive(Clone, Copy)]
pub struct Taken {
    pub answer: u64,
    pub coordinator: Coordinator,
}
