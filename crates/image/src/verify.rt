// Which bytes are an image.
ghost use Rattle.std.specs.Prelude.{◌≡◌, ◌&&◌, length};
ghost use Rattle.image.specs.Layout.{shape, image_size};
ghost use Rattle.image.specs.Valid.{each, counts_ok, state_ok, serial_ok, authors_ok, valid, check};
ghost use Rattle.numbers.specs.Outcome.{number_of};
ghost use Rattle.image.specs.Pass.{holder_fits, copy_fits, author_fits, marked, Walked};

use crate::fields::{get_u8, here_u8, here_u16};
use crate::read::owner_of;
use crate::{
    AUTHOR, AUTHOR_HIGH, AUTHOR_LOW, HELD, HOLDER, LISTED, OBJECT_COUNT, OVER, OWNER_COUNT, Owner,
    READERS, REFUSED, SIZE, WRITERS, Walk,
};
use numbers::{NOBODY, NODES_END, OBJECTS_END, Refusal, UNKNOWN, both, either};

// The two counts are 128 and 13.
fn counts_ok(image: &[u8]) -> bool
    ensures { result ≡ counts_ok shape image.now }
{
    both(
        get_u8(image, OBJECT_COUNT, 0) == OBJECTS_END,
        get_u8(image, OWNER_COUNT, 0) == NODES_END,
    )
}

// What is asked of an owner alone: its state, and that serial and stamp are both 0, then in state 0, or neither is.
fn owner_ok(w: Owner) -> bool
    ensures { result ≡ (state_ok w.state && serial_ok w.serial w.state w.stamp) }
{
    if w.serial == 0 {
        both(w.stamp == 0, w.state == OVER)
    } else {
        both(w.stamp != 0, w.state <= REFUSED)
    }
}

// The mask m with owner o, where it is `here`.
fn mark(m: u16, o: u8, here: bool) -> u16
    ensures { result ≡ marked m o here }
{
    if here {
        mask::join(m, mask::single(o))
    } else {
        m
    }
}

// One walk over the owners: whether each alone is in order, and the masks of those in states 1 and 2.
fn walk(image: &[u8]) -> Walk
    ensures { Walked image.now result }
{
    let mut ok = true;
    let mut listed: u16 = 0;
    let mut held: u16 = 0;
    for o in 0..NODES_END {
        let w = owner_of(image, o);
        ok = both(ok, owner_ok(w));
        listed = mark(listed, o, w.state == LISTED);
        held = mark(held, o, w.state == HELD);
    }
    Walk { ok, listed, held }
}

// The holder is nobody, or in the mask.
fn holder_ok(held: u16, h: u8) -> bool
    ensures { result ≡ holder_fits held h }
{
    h == NOBODY || mask::has(held, h)
}

// Every holder is in one mask, and every list is within the other: the lists are joined, and looked at once.
fn copies_ok(image: &[u8], listed: u16, held: u16) -> bool
    requires { length image.now ≡ image_size shape }
    ensures { result ≡ each shape.objects (copy_fits listed held image.now) }
{
    let mut lists: u16 = 0;
    for t in 0..OBJECTS_END {
        if !holder_ok(held, here_u8(image, HOLDER, t)) {
            return false;
        }
        let r = here_u16(image, READERS, t);
        let w = here_u16(image, WRITERS, t);
        lists = mask::join(lists, mask::join(r, w));
    }
    mask::subset(lists, listed)
}

// An author is an owner with a serial above 0; unknown and nobody have none.
fn author_ok(owner: u8, none: bool) -> bool
    ensures { result ≡ author_fits owner none }
{
    if owner < NODES_END {
        return !none;
    }
    both(either(owner == UNKNOWN, owner == NOBODY), none)
}

// Every author is in order: of its serial only whether it is 0 matters, which its halves tell.
fn authors_ok(image: &[u8]) -> bool
    requires { length image.now ≡ image_size shape }
    ensures { result ≡ authors_ok shape image.now }
{
    for t in 0..OBJECTS_END {
        let low = here_u16(image, AUTHOR_LOW, t);
        let high = here_u16(image, AUTHOR_HIGH, t);
        let none = both(low == 0, high == 0);
        if !author_ok(here_u8(image, AUTHOR, t), none) {
            return false;
        }
    }
    true
}

// Every clause holds.
fn is_valid(image: &[u8]) -> bool
    requires { length image.now ≡ image_size shape }
    ensures { result ≡ valid shape image.now }
{
    let w = walk(image);
    let own = both(counts_ok(image), w.ok);
    let formed = both(own, copies_ok(image, w.listed, w.held));
    both(formed, authors_ok(image))
}

// Whether bytes are an image: refused for another length, and where a clause is broken.
// Ruled out: a listed bit accepted whose owner is held; 'damaged' for bytes of another length.
#[tactic(auto, unfolding(crate::specs::Valid::check_as))]
pub fn check(image: &[u8]) -> Result<(), Refusal>
    ensures { number_of result ≡ check image.now }
{
    if image.len() != SIZE {
        return Err(Refusal::Length);
    }
    if !is_valid(image) {
        return Err(Refusal::Damaged);
    }
    Ok(())
}
