// The replica for C. Each function states the same equation as what it wraps.
ghost use Rattle.std.specs.Prelude.{◌≡◌, cond, length};
ghost use Rattle.numbers.specs.Sizes.{longest_message};
ghost use Rattle.replica.specs.Receive.{deliver, received_of, buffer_of, spoken};

use replica::Received;

// Delivers one message to the replica of node `me`. Ruled out: yes to an object that another holds; an image altered by a refused message.
pub fn senna_replica_receive(
    image: &mut [u8],
    me: u8,
    message: &[u8],
    answer: &mut [u8],
) -> Received
    ensures number { result ≡ received_of (deliver (length answer.old) image.old me message.now) }
    ensures image { image.new ≡ (deliver (length answer.old) image.old me message.now).image }
    ensures buffer { answer.new ≡ buffer_of answer.old image.old me message.now }
{
    replica::receive(image, me, message, answer)
}

// Whether a delivery will have an answer: 1 or 0. Ruled out: 1 for a refused delivery; 0 for a late outcome.
pub fn senna_replica_answers(image: &[u8], me: u8, message: &[u8]) -> u8
    ensures { result ≡ cond (spoken (deliver longest_message image.now me message.now).answer) 1 0 }
{
    if replica::answers(image, me, message) {
        1
    } else {
        0
    }
}
