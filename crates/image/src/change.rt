// What a replica changes in an image beside single fields: all of it made blank, the lists of an object, and what an owner holds or is listed in.
ghost use Rattle.std.specs.Prelude.{◌≡◌, ◌<◌, length};
ghost use Rattle.image.specs.Layout.{shape, image_size, holder_field};
ghost use Rattle.image.specs.Field.{Near, changed, changed_all};
ghost use Rattle.image.specs.Blank.{counted, blank, blank_number};
ghost use Rattle.image.specs.Change.{listing, add_reader, add_writer, freeing, free, unlist};
ghost use Rattle.numbers.specs.Outcome.{number_of};
ghost use Rattle.image.specs.Pass.{struck};

use crate::fields::{get_u16, here_u8, here_u16, put_here_u8, put_here_u16, put_u8, put_u16};
use crate::read::{holder, readers, writers};
use crate::write::{set_holder, set_readers, set_writers};
use crate::{AUTHOR, Field, HOLDER, OBJECT_COUNT, OWNER_COUNT, READERS, SIZE, WRITERS};
use numbers::{NOBODY, NODES_END, OBJECTS_END, Refusal};

// The two counts are set.
fn count(image: &mut [u8])
    ensures { image.new ≡ counted shape image.old }
{
    put_u8(image, OBJECT_COUNT, 0, OBJECTS_END);
    put_u8(image, OWNER_COUNT, 0, NODES_END);
}

// Every object has the number v in the field f.
fn set_all(image: &mut [u8], f: Field, v: u8)
    requires { Near f × (f.width ≡ 1) }
    ensures { image.new ≡ changed_all f (λ a. v) shape.objects image.old }
{
    for t in 0..OBJECTS_END {
        put_u8(image, f, t, v);
    }
}

// Makes 2,935 bytes the blank image; refused, and nothing altered, for another length.
// Ruled out: holders left 0, which is node 0; a byte of the old image kept.
#[tactic(auto, unfolding(crate::specs::Blank::blank, crate::specs::Blank::blank_number))]
pub fn blank(image: &mut [u8]) -> Result<(), Refusal>
    ensures number { number_of result ≡ blank_number image.old }
    ensures image { image.new ≡ blank image.old }
{
    if image.len() != SIZE {
        return Err(Refusal::Length);
    }
    image.fill(0);
    count(image);
    set_all(image, HOLDER, NOBODY);
    set_all(image, AUTHOR, NOBODY);
    Ok(())
}

// Owner o joins the list f of item t.
fn add(image: &mut [u8], f: Field, t: u8, o: u8)
    requires { Near f × (f.width ≡ 2) }
    ensures { image.new ≡ changed f (listing o) image.old t }
{
    let m = mask::join(get_u16(image, f, t), mask::single(o));
    put_u16(image, f, t, m);
}

// Owner o joins the readers of object t. Ruled out: the readers replaced by o alone; o put among the writers.
pub fn add_reader(image: &mut [u8], t: u8, o: u8)
    ensures { image.new ≡ add_reader image.old t o }
{
    add(image, READERS, t, o);
}

// Owner o joins the writers of object t. Ruled out: the readers' bits taken over; every owner below o joining too.
pub fn add_writer(image: &mut [u8], t: u8, o: u8)
    ensures { image.new ≡ add_writer image.old t o }
{
    add(image, WRITERS, t, o);
}

// Owner o lets go of the copy of object t, if it holds it.
fn free_one(image: &mut [u8], t: u8, o: u8)
    ensures { image.new ≡ changed (holder_field shape) (freeing o) image.old t }
{
    if holder(image, t) == o {
        set_holder(image, t, NOBODY);
    }
}

// Owner o lets go of every copy, in bytes of any length.
fn free_any(image: &mut [u8], o: u8)
    ensures { image.new ≡ free image.old o }
{
    for t in 0..OBJECTS_END {
        free_one(image, t, o);
    }
}

// The same in bytes of an image's length, where no place is tested.
fn free_here(image: &mut [u8], t: u8, o: u8)
    requires { (t < shape.objects) × (length image.old ≡ image_size shape) }
    ensures { image.new ≡ changed (holder_field shape) (freeing o) image.old t }
{
    if here_u8(image, HOLDER, t) == o {
        put_here_u8(image, HOLDER, t, NOBODY);
    }
}

fn free_all(image: &mut [u8], o: u8)
    requires { length image.old ≡ image_size shape }
    ensures { image.new ≡ free image.old o }
{
    for t in 0..OBJECTS_END {
        free_here(image, t, o);
    }
}

// Frees every copy that owner o holds. Ruled out: the copies of other owners freed; only the first of o's copies freed.
pub fn free(image: &mut [u8], o: u8)
    ensures { image.new ≡ free image.old o }
{
    if image.len() == SIZE {
        free_all(image, o);
    } else {
        free_any(image, o);
    }
}

// The owners of the mask `own` leave both lists of object t.
fn strike_one(image: &mut [u8], t: u8, own: u16)
    ensures { image.new ≡ struck own image.old t }
{
    let r = mask::without(readers(image, t), own);
    set_readers(image, t, r);
    let w = mask::without(writers(image, t), own);
    set_writers(image, t, w);
}

// Owner o leaves all lists, in bytes of any length.
fn strike_any(image: &mut [u8], o: u8)
    ensures { image.new ≡ unlist image.old o }
{
    let own = mask::single(o);
    for t in 0..OBJECTS_END {
        strike_one(image, t, own);
    }
}

// The same in bytes of an image's length, where no place is tested.
fn strike_here(image: &mut [u8], t: u8, own: u16)
    requires { (t < shape.objects) × (length image.old ≡ image_size shape) }
    ensures { image.new ≡ struck own image.old t }
{
    let r = mask::without(here_u16(image, READERS, t), own);
    put_here_u16(image, READERS, t, r);
    let w = mask::without(here_u16(image, WRITERS, t), own);
    put_here_u16(image, WRITERS, t, w);
}

fn strike_all(image: &mut [u8], o: u8)
    requires { length image.old ≡ image_size shape }
    ensures { image.new ≡ unlist image.old o }
{
    let own = mask::single(o);
    for t in 0..OBJECTS_END {
        strike_here(image, t, own);
    }
}

// Owner o leaves all readers and writers. Ruled out: the whole lists emptied; o left among the writers.
pub fn unlist(image: &mut [u8], o: u8)
    ensures { image.new ≡ unlist image.old o }
{
    if image.len() == SIZE {
        strike_all(image, o);
    } else {
        strike_any(image, o);
    }
}
