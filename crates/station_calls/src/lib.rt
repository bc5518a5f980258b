// A host's calls at a station's nodes, switching a node on or off, and the maker of a blank station, over the lent buffers.
#![tactic(auto)]

mod blanks;
mod calls;
mod switches;

pub use blanks::blank;
pub use calls::{abort, begin, found, open_read, open_write, request_commit, reselect, set_value};
pub use switches::switch;
