// A node's front end: its settings, bytes lent beside its record, and its host's calls over both. What begins goes by the packing hours, a batch books
// weights by the node's classes, and the host's own opens and values are not for a batch. Every other call is the record's own.
#![tactic(auto)]

mod calls;
mod tell;
mod whole;

pub use calls::{batch, begin, load_classes, open_read, open_write, request_commit, set_value};
use coordinator::BeginWith;
pub use tell::waiting;
pub use whole::{check_list, front, refuse_nowhere, refuse_off};

// What a host may ask of a front end.
#[derive(Clone, Copy)]
pub enum Act {
    Begin,
    Batch,
    OpenRead,
    OpenWrite,
    SetValue,
    RequestCommit,
    LoadClasses,
}

// One call: what is asked, and what that needs. The rest is not looked at.
#[derive(Clone, Copy)]
pub struct Ask {
    pub act: Act,
    pub with: BeginWith,
    pub object: u8,
    pub value: u64,
    pub day: u32,
    pub minute: u16,
}
