// A step of any kind, given as one order.
#![tactic(auto)]

use coordinator::BeginWith;

// The kinds of steps.
#[derive(Clone, Copy)]
pub enum Kind {
    Begin,
    Batch,
    OpenRead,
    OpenWrite,
    SetValue,
    Found,
    Reselect,
    RequestCommit,
    Abort,
    LoadHours,
    LoadClasses,
    Send,
    Deliver,
    Drop,
    Switch,
}

// A step: its kind, and what that kind needs. The rest is not looked at.
#[derive(Clone, Copy)]
pub struct Order {
    pub kind: Kind,
    pub node: u8,
    pub to: u8,
    pub object: u8,
    pub place: u8,
    pub flag: bool,
    pub value: u64,
    pub day: u32,
    pub minute: u16,
    pub with: BeginWith,
}
