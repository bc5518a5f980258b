// A node switched on or off.
ghost use Rattle.std.specs.Prelude.{◌≡◌, cond};
ghost use Rattle.mask.specs.Mask.{joined, minus};
ghost use Rattle.station_calls.specs.Calls.{switching, switch_told, switch_own};

use buffers::{Answer, on, own_number, refused};
use numbers::NODES_END;

// A mask with the nodes of another, or without them.
fn changed(m: u16, one: u16, up: bool) -> u16
    ensures { result ≡ cond up (joined m one) (minus m one) }
{
    if up {
        mask::join(m, one)
    } else {
        mask::without(m, one)
    }
}

// Switches a node on or off. Ruled out: a repeated switch turns it back; another node is switched.
pub fn switch(own: &mut [u8], node: u8, up: bool) -> Answer
    ensures value { result ≡ switch_told (switching own.old) node up }
    ensures own_after { own.new ≡ switch_own (switching own.old) node up }
{
    let number = own_number(own);
    if number != 0 {
        return refused(number);
    }
    if NODES_END <= node {
        return refused(numbers::STRANGER);
    }
    let m = changed(on(own), mask::single(node), up);
    octets::put_u16(own, 0, m);
    refused(0)
}
