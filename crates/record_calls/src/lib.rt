// The host's calls on a record as bytes: begin to abort. `calls` checks the bytes and then calls the crate `deeds`, which works on bytes whose check
// passed; `ahead` says whether a call would be taken and alters nothing.
#![tactic(auto)]

mod ahead;
mod calls;

pub use ahead::{may_abort, may_begin, may_open, may_request, may_reselect, may_set, may_tell};
pub use calls::{abort, begin, found, open_read, open_write, request_commit, reselect, set_value};
