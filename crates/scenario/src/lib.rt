// Scenarios as text: the lines are read, the steps that they name are taken at the station over its lent buffers, and what they answered, what was put
// into the pool, and the end of each scenario are printed.
#![tactic(auto)]

mod lines;

pub use lines::{finish, take};
