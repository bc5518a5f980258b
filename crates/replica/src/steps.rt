// What a fetch, an ask and an outcome do, once nothing refuses them.
ghost use Rattle.std.specs.Prelude.{◌≡◌, length, false};
ghost use Rattle.wire.specs.Decode.{decode};
ghost use Rattle.replica.specs.Steps.{copy_here, fetch_image, fetch_answer, judged_image, judged_answer, ask_image, ask_answer};
ghost use Rattle.replica.specs.Steps.{outcome_image, outcome_answer};
ghost use Rattle.image.specs.Change.{unlist};
ghost use Rattle.replica.specs.Given.{written_as, filled_by, Raisable, Clear};

use crate::answer::{say_copy, say_done, say_vote, silence};
use crate::change::{hold, join_list, leave, settle};
use judge::{enter, is_active, judged, serials_of, standing};
use numbers::NODES;

// The copy here of the entry's object, with the entry's mode.
#[tactic(auto, unfolding(crate::specs::Steps::copy_here))]
fn copy_here(image: &[u8], e: wire::Entry) -> wire::Entry
    ensures { result ≡ copy_here image.now e }
{
    wire::Entry {
        object: e.object,
        mode: e.mode,
        version: image::version(image, e.object),
        value: image::value(image, e.object),
    }
}

// A fetch: listed, the owner joins a list and the copy is answered.
pub(crate) fn fetch(image: &mut [u8], me: u8, message: &[u8], answer: &mut [u8]) -> letters::Written
    ensures number { result ≡ written_as (length answer.old) (fetch_answer me image.old (decode message.now)) }
    ensures image { image.new ≡ fetch_image image.old (decode message.now) }
    ensures buffer { answer.new ≡ filled_by (fetch_answer me image.old (decode message.now)) answer.old }
{
    if is_active(image, message) {
        let e = copy_here(image, wire::nth_entry(message, 0));
        enter(image, message);
        join_list(image, wire::owner(message), e);
        return say_copy(answer, me, message, e);
    }
    silence()
}

// A listed ask: a no leaves it refused; a yes holds what it writes and names the rivals. Either way the owner leaves all lists, if it was `listed` before.
fn judge(
    image: &mut [u8],
    me: u8,
    message: &[u8],
    answer: &mut [u8],
    listed: bool,
) -> letters::Written
    requires { listed ≡ false → unlist image.old (decode message.now).owner ≡ image.old }
    ensures number { result ≡ written_as (length answer.old) (judged_answer me image.old (decode message.now)) }
    ensures image { image.new ≡ judged_image image.old (decode message.now) }
    ensures buffer { answer.new ≡ filled_by (judged_answer me image.old (decode message.now)) answer.old }
{
    let o = wire::owner(message);
    let v = judged(image, message);
    if v.no {
        leave(image, o, image::REFUSED, listed);
        return say_vote(answer, me, message, [0; NODES], 0);
    }
    let serials = serials_of(image, v.rivals);
    leave(image, o, image::HELD, listed);
    hold(image, message);
    say_vote(answer, me, message, serials, 1)
}

// An ask: listed is judged; held answers yes and refused no again, naming no rivals.
pub(crate) fn ask(image: &mut [u8], me: u8, message: &[u8], answer: &mut [u8]) -> letters::Written
    requires { Clear image.old (decode message.now) }
    ensures number { result ≡ written_as (length answer.old) (ask_answer me image.old (decode message.now)) }
    ensures image { image.new ≡ ask_image image.old (decode message.now) }
    ensures buffer { answer.new ≡ filled_by (ask_answer me image.old (decode message.now)) answer.old }
{
    let s = standing(image, message);
    if is_active(image, message) {
        enter(image, message);
        return judge(image, me, message, answer, s == image::LISTED);
    }
    if s == image::HELD {
        return say_vote(answer, me, message, [0u32; NODES], 1);
    }
    if s == image::REFUSED {
        return say_vote(answer, me, message, [0u32; NODES], 0);
    }
    silence()
}

// An outcome: always answered with done.
#[tactic(auto, unfolding(crate::specs::Given::written_as, crate::specs::Given::filled_by))]
pub(crate) fn outcome(
    image: &mut [u8],
    me: u8,
    message: &[u8],
    answer: &mut [u8],
) -> letters::Written
    requires { Raisable (decode message.now) × Clear image.old (decode message.now) }
    ensures number { result ≡ written_as (length answer.old) (outcome_answer me (decode message.now)) }
    ensures image { image.new ≡ outcome_image image.old (decode message.now) }
    ensures buffer { answer.new ≡ filled_by (outcome_answer me (decode message.now)) answer.old }
{
    settle(image, message);
    say_done(answer, me, message)
}
