// The coordinator's record as bytes: checked, read, written and shown. The calls on these bytes are in `record_calls`, `record_arrive` and `record_due`,
// which read and change single pieces of them by the functions of `load`, `look` and `store`. Some of these ask a plain fact of the bytes: their length, a
// count, that the check passed. Their callers prove it.
#![tactic(auto)]

ghost use Rattle.std.specs.Prelude.{◌≡◌};
ghost use Rattle.record.specs.Call.{told};

pub mod load;
pub mod look;
pub mod store;
mod tell;
mod verify;

pub use load::read;
use numbers::{MOST_OPEN, NODES, Refusal};
pub use store::{blank, write};
pub use tell::{count, is_ready, mode, object, outcome, participants, phase, serial, timestamp};
pub use verify::check;

// What C is told of a call: its number, and its answer (0 where there is none).
#[repr(C)]
#[derive(Clone, Copy)]
pub struct Called {
    pub number: u8,
    pub answer: u64,
}

impl From<Result<u64, Refusal>> for Called {
    ghost from_gives = { λ outcome called. called ≡ told outcome };

    fn from(outcome: Result<u64, Refusal>) -> Called {
        match outcome {
            Ok(answer) => Called { number: 0, answer },
            Err(refusal) => Called {
                number: u8::from(refusal),
                answer: 0,
            },
        }
    }
}

// Sizes in bytes: a distance, an object, a rival's serial.
pub const DISTANCE_SIZE: usize = 2;

pub const OBJECT_SIZE: usize = 25;

pub const RIVAL_SIZE: usize = 4;

// Where each field stands, in the order of the struct.
pub const SERIAL: usize = 0;

pub const TIMESTAMP: usize = SERIAL + 4;

pub const OUTCOME: usize = TIMESTAMP + 4;

pub const PHASE: usize = OUTCOME + 1;

pub const LIVE: usize = PHASE + 1;

pub const DISTANCES: usize = LIVE + 2;

pub const QUORUM: usize = DISTANCES + DISTANCE_SIZE * NODES;

pub const CONTACTED: usize = QUORUM + 2;

pub const COUNT: usize = CONTACTED + 2;

pub const OBJECTS_PLACE: usize = COUNT + 1;

pub const PARTICIPANTS: usize = OBJECTS_PLACE + OBJECT_SIZE * MOST_OPEN;

pub const YES: usize = PARTICIPANTS + 2;

pub const DONE: usize = YES + 2;

pub const RIVALS: usize = DONE + 2;

// The size of a record.
pub const SIZE: usize = RIVALS + RIVAL_SIZE * NODES;

// The fields of an object, from its first byte on.
pub const MODE_IN: usize = 1;

pub const CAME_IN: usize = 2;

pub const VERSION_IN: usize = 4;

pub const VALUE_IN: usize = 8;

pub const GIVEN_IN: usize = 16;

pub const NEW_IN: usize = 17;
