// The opened objects of a record, in the order of opening: where one stands, and what holds of all of them.
ghost use Rattle.std.specs.Prelude.{◌≡◌, not, ◌&&◌, eqb, get_or, set};
ghost use Rattle.numbers.specs.Sizes.{highest};
ghost use Rattle.coordinator.specs.System.{tree};
ghost use Rattle.coordinator.specs.State.{no_object, place_in, place_of, object_at, ready, settled, all_settled, any_used_up};

use crate::{Coordinator, NO_OBJECT, Object};
use numbers::{HIGHEST, MOST_OPEN};
use quorum::Kind;

// The place of an opened object; 8 where it is not open.
fn place_in(objects: [Object; MOST_OPEN], count: usize, object: u8) -> usize
    ensures { result ≡ place_in objects count object }
{
    objects
        .iter()
        .take(count)
        .position(|x| x.object == object)
        .unwrap_or(MOST_OPEN)
}

// The same in a record. Ruled out: the place of a blank object past the count; the last of two places that have the object.
pub fn place(c: Coordinator, object: u8) -> usize
    ensures { result ≡ place_of c object }
{
    let objects = c.objects;
    place_in(objects, c.count, object)
}

// Whether copies have come from a read quorum. Ruled out: ready after the first copy; ready only when every node's copy came.
pub fn is_ready(x: Object) -> bool
    ensures { result ≡ ready tree x }
{
    quorum::is_quorum(Kind::Read, x.came)
}

// Whether votes may be asked for an object: it is ready, and if it is written its new value was given.
fn is_settled(x: Object) -> bool
    ensures { result ≡ settled tree x }
{
    is_ready(x) && (x.mode == 0 || x.given)
}

// The same of every object. Ruled out: true where the last object opened is settled and an earlier one is not; false for a blank place past the count.
pub fn all_settled(objects: [Object; MOST_OPEN], count: usize) -> bool
    ensures { result ≡ all_settled tree objects count }
{
    objects.iter().take(count).all(|x| is_settled(*x))
}

// Whether an object is written and its version has no next one.
fn is_used_up(x: Object) -> bool
    ensures { result ≡ (not (eqb x.mode 0) && eqb x.version highest) }
{
    x.mode != 0 && x.version == HIGHEST
}

// The same of every object. Ruled out: a version read counted as used up; only the last object looked at.
pub fn any_used_up(objects: [Object; MOST_OPEN], count: usize) -> bool
    ensures { result ≡ any_used_up objects count }
{
    objects.iter().take(count).any(|x| is_used_up(*x))
}

// The object that stands at a place; a blank one past the end. Ruled out: the place after it; the last object for a place past the end.
pub fn at_index(objects: [Object; MOST_OPEN], p: usize) -> Object
    ensures { result ≡ get_or objects p no_object }
{
    if p < MOST_OPEN { objects[p] } else { NO_OBJECT }
}

// An opened object of a record. Ruled out: the object at the place that the number itself names; another than a blank one for one that is not open.
pub fn at_place(c: Coordinator, object: u8) -> Object
    ensures { result ≡ object_at c object }
{
    let objects = c.objects;
    at_index(objects, place(c, object))
}

// The objects with another at a place; the same where there is no such place.
pub(crate) fn put(objects: [Object; MOST_OPEN], p: usize, x: Object) -> [Object; MOST_OPEN]
    ensures { result ≡ set objects p x }
{
    let mut a = objects;
    if p < MOST_OPEN {
        a[p] = x;
    }
    a
}
