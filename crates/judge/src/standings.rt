// How a message's transaction stands here.
ghost use Rattle.std.specs.Prelude.{◌≡◌};
ghost use Rattle.wire.specs.Decode.{decode};
ghost use Rattle.judge.specs.Standing.{above_of, standing, active, entered};

use crate::{AHEAD, FRESH};
use numbers::either;

// The number of a standing: over for late, the state of the last serial, fresh or ahead above it.
// Ruled out: a second serial that has the first one's state; an older serial that counts as fresh.
#[tactic(auto, unfolding(crate::specs::Standing::standing, wire::specs::Decode::decode))]
pub fn standing(image: &[u8], message: &[u8]) -> u8
    ensures { result ≡ standing image.now (decode message.now) }
{
    let o = wire::owner(message);
    let s = wire::serial(message);
    let last = image::serial(image, o);
    let state = image::state(image, o);
    if last < s {
        return above(state);
    }
    if last == s { state } else { image::OVER }
}

// A serial above the last.
#[tactic(auto, unfolding(crate::specs::Standing::above_of))]
fn above(state: u8) -> u8
    ensures { result ≡ above_of state }
{
    if state == image::OVER { FRESH } else { AHEAD }
}

// Listed already, or fresh.
// Ruled out: active again after its outcome; active once it is held.
#[tactic(auto, unfolding(crate::specs::Standing::active))]
pub fn is_active(image: &[u8], message: &[u8]) -> bool
    ensures { result ≡ active image.now (decode message.now) }
{
    let s = standing(image, message);
    either(s == image::LISTED, s == FRESH)
}

// A fresh transaction becomes listed, with its serial and stamp.
// Ruled out: a stamp replaced while the transaction is listed; another owner's serial replaced.
#[tactic(auto, unfolding(crate::specs::Standing::entered, wire::specs::Decode::decode))]
pub fn enter(image: &mut [u8], message: &[u8])
    ensures { image.new ≡ entered image.old (decode message.now) }
{
    if standing(image, message) == FRESH {
        let o = wire::owner(message);
        image::set_serial(image, o, wire::serial(message));
        image::set_state(image, o, image::LISTED);
        image::set_stamp(image, o, wire::stamp(message));
    }
}
