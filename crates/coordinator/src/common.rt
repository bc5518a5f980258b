// The idle record.
ghost use Rattle.std.specs.Prelude.{◌≡◌};
ghost use Rattle.coordinator.specs.State.{idle_after};

use crate::{Coordinator, IDLE, NO_OBJECT};
use numbers::{MOST_OPEN, NODES};

// An idle record with a lasting part; the rest is blank. Ruled out: the phase left finishing; the serial set back to 0.
pub fn idle_with(serial: u32, timestamp: u32, outcome: u8) -> Coordinator
    ensures { result ≡ idle_after serial timestamp outcome }
{
    let objects = [NO_OBJECT; MOST_OPEN];
    let distances = [0u16; NODES];
    let rivals = [0u32; NODES];
    Coordinator {
        serial,
        timestamp,
        outcome,
        phase: IDLE,
        live: 0,
        distances,
        quorum: 0,
        contacted: 0,
        count: 0,
        objects,
        participants: 0,
        yes: 0,
        done: 0,
        rivals,
    }
}
