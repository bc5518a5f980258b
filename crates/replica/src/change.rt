// What a vote or an outcome changes in the image.
ghost use Rattle.std.specs.Prelude.{◌≡◌, true, false, ◌<◌};
ghost use Rattle.numbers.specs.Sizes.{nodes};
ghost use Rattle.wire.specs.Decode.{decode};
ghost use Rattle.replica.specs.Steps.{joins, holding_one, holding, leaves, applied_one, applied, decided, released, outcome_image};
ghost use Rattle.replica.specs.Given.{raisable, Raisable, Clear};
ghost use Rattle.image.specs.Valid.{check};
ghost use Rattle.image.specs.Change.{unlist};

use judge::{FRESH, standing};

// The owner o joins the readers or the writers of the entry's object.
pub(crate) fn join_list(image: &mut [u8], o: u8, e: wire::Entry)
    ensures { image.new ≡ joins image.old o e }
{
    if e.mode == 0 {
        image::add_reader(image, e.object, o);
    } else {
        image::add_writer(image, e.object, o);
    }
}

// The owner o holds the entry's copy, if it is written.
fn hold_one(image: &mut [u8], o: u8, e: wire::Entry)
    ensures { image.new ≡ holding_one image.old o e }
{
    if e.mode != 0 {
        image::set_holder(image, e.object, o);
    }
}

// The owner holds every copy that the message writes.
pub(crate) fn hold(image: &mut [u8], message: &[u8])
    ensures { image.new ≡ holding image.old (decode message.now).owner (decode message.now).entries }
{
    let o = wire::owner(message);
    for i in 0..wire::entries(message) {
        hold_one(image, o, wire::nth_entry(message, i));
    }
}

// The owner o leaves all lists, and has this state. Where it is in none, there is nothing to leave.
#[tactic(auto, unfolding(crate::specs::Steps::leaves))]
pub(crate) fn leave(image: &mut [u8], o: u8, state: u8, listed: bool)
    requires { listed ≡ false → unlist image.old o ≡ image.old }
    ensures { image.new ≡ leaves image.old o state }
{
    if listed {
        image::unlist(image, o);
        image::set_state(image, o, state);
        return;
    }
    image::set_state(image, o, state);
}

// The entry's copy takes its value, its version plus 1 and owner o's transaction n as its author, if it is written.
fn apply_one(image: &mut [u8], o: u8, n: u32, e: wire::Entry)
    requires { raisable e ≡ true }
    ensures { image.new ≡ applied_one image.old o n e }
{
    if e.mode != 0 {
        image::set_value(image, e.object, e.value);
        image::set_version(image, e.object, e.version + 1);
        image::set_author(image, e.object, o, n);
    }
}

// The same of every entry.
fn apply(image: &mut [u8], message: &[u8])
    requires { Raisable (decode message.now) }
    ensures { image.new ≡ applied image.old (decode message.now).owner (decode message.now).serial
        (decode message.now).entries }
{
    let o = wire::owner(message);
    let s = wire::serial(message);
    for i in 0..wire::entries(message) {
        apply_one(image, o, s, wire::nth_entry(message, i));
    }
}

// A commit writes, an abort does not.
fn decide(image: &mut [u8], message: &[u8])
    requires { Raisable (decode message.now) }
    ensures { image.new ≡ decided image.old (decode message.now) }
{
    if wire::word(message) == 1 {
        apply(image, message);
    }
}

// The owner o lets go of everything, and is over. In a valid image only a held owner holds copies, and only a listed one is in lists.
fn release(image: &mut [u8], o: u8)
    requires { (check image.old ≡ 0) × (o < nodes) }
    ensures { image.new ≡ released image.old o }
{
    let state = image::state(image, o);
    if state == image::HELD {
        image::free(image, o);
        image::set_state(image, o, image::OVER);
        return;
    }
    leave(image, o, image::OVER, state == image::LISTED);
}

// An outcome: late, an abort of a fresh serial (document 01: early), or of the transaction that is here.
pub(crate) fn settle(image: &mut [u8], message: &[u8])
    requires { Raisable (decode message.now) × Clear image.old (decode message.now) }
    ensures { image.new ≡ outcome_image image.old (decode message.now) }
{
    let s = standing(image, message);
    let o = wire::owner(message);
    if s == image::OVER {
        return;
    }
    if s == FRESH {
        image::set_serial(image, o, wire::serial(message));
        image::set_state(image, o, image::OVER);
        image::set_stamp(image, o, wire::stamp(message));
        return;
    }
    decide(image, message);
    release(image, o);
}
