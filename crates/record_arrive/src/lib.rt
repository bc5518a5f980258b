// A delivery to a record as bytes. `arrive` works on bytes whose check passed; `receive` checks them first.
#![tactic(auto)]

ghost use Rattle.std.specs.Prelude.{◌≡◌};
ghost use Rattle.coordinator.specs.declared.Coordinator.{Coordinator};
ghost use Rattle.coordinator.specs.System.{tree};
ghost use Rattle.arrivals.specs.Receive.{receive_of};
ghost use Rattle.record.specs.Call.{told, record_after};
ghost use Rattle.record_arrive.specs.Call.{received_of};

mod arrive;

use numbers::Refusal;
use record::{SIZE, check};

// Delivers a message; answers what it brought about: refused for either length, then as any call.
// Ruled out: 'damaged' for a damaged record and a message of 14 bytes; a yes that leaves the bytes as they were.
#[tactic(auto, using(crate::proofs::OnBytes::all), unfolding(crate::specs::Call::received_of, record::specs::Call::called_of))]
pub fn receive(bytes: &mut [u8], me: u8, message: &[u8]) -> Result<u64, Refusal>
    ensures value { told result ≡ received_of me message.now bytes.old }
    ensures bytes_after { bytes.new ≡ record_after (λ (c : Coordinator). receive_of tree c me message.now) bytes.old }
{
    if !wire::has_length(message) {
        return Err(Refusal::Length);
    }
    check(bytes)?;
    arrivals::may_receive(me, message)?;
    Ok(arrive::deliver(&mut bytes[..SIZE], message))
}
