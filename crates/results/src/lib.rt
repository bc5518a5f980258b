// What comes of a step, as text: what it answered, the message that it names and the one that it put; and replay told of it.
#![tactic(auto)]

mod answers;
mod messages;

pub use answers::{refusal, result};
pub use messages::{conclude, count, named, owner_of};
