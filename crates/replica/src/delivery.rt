// A delivery: the refusals first, before anything is written, then the step of the message's kind.
ghost use Rattle.std.specs.Prelude.{◌≡◌, length};
ghost use Rattle.numbers.specs.Sizes.{longest_message};
ghost use Rattle.wire.specs.Decode.{kind_of, decode};
ghost use Rattle.numbers.specs.Outcome.{number_of};
ghost use Rattle.replica.specs.Given.{written_as, filled_by, Raisable, Clear};
ghost use Rattle.replica.specs.Receive.{outcome_wrong_turn, wrong_turn, refusal, step, deliver, received_of, buffer_of, spoken, speaks};

use crate::Received;
use crate::answer::silence;
use crate::steps::{ask, fetch, outcome};
use judge::{AHEAD, is_active, standing};
use numbers::{LONGEST_MESSAGE, NODES_END, Refusal};

// A commit needs late or held; an abort anything but ahead.
#[tactic(auto, unfolding(crate::specs::Receive::outcome_wrong_turn))]
fn outcome_wrong_turn(word: u8, s: u8) -> bool
    ensures { result ≡ outcome_wrong_turn word s }
{
    let fits = s == image::OVER || s == image::HELD;
    if word == 1 { !fits } else { s == AHEAD }
}

// Whether a message is out of turn.
fn wrong_turn(image: &[u8], message: &[u8]) -> bool
    ensures { result ≡ wrong_turn image.now (decode message.now) }
{
    let s = standing(image, message);
    match wire::kind(message) {
        1 => s == AHEAD,
        3 => s == AHEAD,
        5 => outcome_wrong_turn(wire::word(message), s),
        _ => true,
    }
}

// Whether a message may be delivered, with room of a size for an answer.
#[tactic(auto, using(crate::proofs::Refused::all), unfolding(crate::specs::Receive::refusal, crate::specs::Receive::refusals, wire::specs::Decode::decode))]
fn may_deliver(image: &[u8], me: u8, message: &[u8], size: usize) -> Result<(), Refusal>
    ensures { number_of result ≡ refusal size image.now me message.now }
{
    if size < LONGEST_MESSAGE {
        return Err(Refusal::Length);
    }
    if image.len() != image::SIZE || !wire::has_length(message) {
        return Err(Refusal::Length);
    }
    image::check(image)?;
    wire::check(message)?;
    if NODES_END <= me || wire::to(message) != me {
        return Err(Refusal::Stranger);
    }
    if wrong_turn(image, message) {
        return Err(Refusal::OutOfTurn);
    }
    Ok(())
}

// The step of a message's kind.
#[tactic(auto, unfolding(crate::specs::Receive::step, wire::specs::Decode::decode, crate::specs::Given::written_as, crate::specs::Given::filled_by))]
fn perform(image: &mut [u8], me: u8, message: &[u8], answer: &mut [u8]) -> letters::Written
    requires { (kind_of message.now ≡ 5 → Raisable (decode message.now)) × Clear image.old (decode message.now) }
    ensures number { result ≡ written_as (length answer.old) (step image.old me (decode message.now)).answer }
    ensures image { image.new ≡ (step image.old me (decode message.now)).image }
    ensures buffer { answer.new ≡ filled_by (step image.old me (decode message.now)).answer answer.old }
{
    match wire::kind(message) {
        1 => fetch(image, me, message, answer),
        3 => ask(image, me, message, answer),
        5 => outcome(image, me, message, answer),
        _ => silence(),
    }
}

// Delivers one message to the replica of node `me`: its number, the image after it, and the answer at the front of the buffer.
// Ruled out: a replica that votes no to everything; one that writes the buffer or the image on a refusal; one that holds again after its abort.
pub fn receive(image: &mut [u8], me: u8, message: &[u8], answer: &mut [u8]) -> Received
    ensures number { result ≡ received_of (deliver (length answer.old) image.old me message.now) }
    ensures image { image.new ≡ (deliver (length answer.old) image.old me message.now).image }
    ensures buffer { answer.new ≡ buffer_of answer.old image.old me message.now }
{
    match may_deliver(image, me, message, answer.len()) {
        Ok(()) => {
            let w = perform(image, me, message, answer);
            Received {
                number: w.number,
                length: w.length,
            }
        }
        Err(refusal) => Received {
            number: u8::from(refusal),
            length: 0,
        },
    }
}

// Whether a message that nothing refuses is answered.
#[tactic(auto, unfolding(crate::specs::Receive::speaks, wire::specs::Decode::decode))]
fn speaks(image: &[u8], message: &[u8]) -> bool
    ensures { result ≡ speaks image.now (decode message.now) }
{
    let active = is_active(image, message);
    let s = standing(image, message);
    match wire::kind(message) {
        1 => active,
        3 => active || s == image::HELD || s == image::REFUSED,
        5 => true,
        _ => false,
    }
}

// Whether a delivery into a buffer that is long enough will have an answer.
// Ruled out: an answer foretold for a refused delivery; none foretold for a late outcome.
pub fn answers(image: &[u8], me: u8, message: &[u8]) -> bool
    ensures { result ≡ spoken (deliver longest_message image.now me message.now).answer }
{
    match may_deliver(image, me, message, LONGEST_MESSAGE) {
        Ok(()) => speaks(image, message),
        Err(_) => false,
    }
}
