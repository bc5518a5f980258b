// The messages between a station's nodes, over the lent buffers: a send of what is due, a delivery of any waiting message, a drop.
#![tactic(auto)]

ghost use Rattle.std.specs.Prelude.{◌≡◌};

mod delivery;
mod messages;
mod pools;

pub use delivery::deliver;
pub use pools::{drop, send};
