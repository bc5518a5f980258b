// The replica: `host::replicas`, exported.
ghost use Rattle.std.specs.Prelude.{◌≡◌, cond, length};
ghost use Rattle.numbers.specs.Sizes.{longest_message};
ghost use Rattle.replica.specs.Receive.{deliver, received_of, buffer_of, spoken};

use replica::Received;

#[unsafe(no_mangle)]
pub extern "C" fn senna_replica_receive(
    image: &mut [u8],
    me: u8,
    message: &[u8],
    answer: &mut [u8],
) -> Received
    ensures number { result ≡ received_of (deliver (length answer.old) image.old me message.now) }
    ensures image { image.new ≡ (deliver (length answer.old) image.old me message.now).image }
    ensures buffer { answer.new ≡ buffer_of answer.old image.old me message.now }
{
    host::replicas::senna_replica_receive(image, me, message, answer)
}

#[unsafe(no_mangle)]
pub extern "C" fn senna_replica_answers(image: &[u8], me: u8, message: &[u8]) -> u8
    ensures { result ≡ cond (spoken (deliver longest_message image.now me message.now).answer) 1 0 }
{
    host::replicas::senna_replica_answers(image, me, message)
}
