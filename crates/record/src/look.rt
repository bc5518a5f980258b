// What the bytes of a record say, read where they stand.
ghost use Rattle.std.specs.Prelude.{◌≡◌, ◌≤◌, length, get_or};
ghost use Rattle.record.specs.Layout.{record_size};
ghost use Rattle.numbers.specs.Sizes.{most_open};
ghost use Rattle.coordinator.specs.System.{tree};
ghost use Rattle.coordinator.specs.State.{no_object, place_of, object_at, all_settled, any_used_up, awaited};
ghost use Rattle.record.specs.Record.{objects_of, record_of};

use crate::load::{object_of, wide};
use crate::verify::{is_settled, is_used_up};
use crate::{CONTACTED, COUNT, OBJECT_SIZE, OBJECTS_PLACE, PARTICIPANTS, PHASE};
use coordinator::{NO_OBJECT, Object};
use numbers::MOST_OPEN;

// The phase. Ruled out: the outcome beside it; the live nodes behind it.
pub fn phase(bytes: &[u8]) -> u8
    ensures { result ≡ (record_of bytes.now).phase }
{
    octets::get_u8(bytes, PHASE)
}

// How many objects are open. Ruled out: one fewer; the number of the first object.
pub fn count(bytes: &[u8]) -> usize
    ensures { result ≡ (record_of bytes.now).count }
{
    wide(octets::get_u8(bytes, COUNT))
}

// The place of an opened object; 8 where it is not open. Ruled out: a place past the count; the last place for an object that is not open.
// The condition is a plain fact of a record that was checked; only the crates that work on one use it, and each proves it.
pub fn place(bytes: &[u8], object: u8) -> usize
    requires { (length bytes.now ≡ record_size) × ((record_of bytes.now).count ≤ most_open) }
    ensures { (result ≡ place_of (record_of bytes.now) object) × (result ≤ most_open) }
{
    let n = count(bytes);
    for i in 0..n {
        if bytes[OBJECTS_PLACE + OBJECT_SIZE * i] == object {
            return i;
        }
    }
    MOST_OPEN
}

// The object at a place; a blank one past the last place. Ruled out: the object behind it; the new value taken for the value found.
pub fn object_at(bytes: &[u8], p: usize) -> Object
    ensures { result ≡ get_or (objects_of bytes.now) p no_object }
{
    if p < MOST_OPEN {
        object_of(bytes, OBJECTS_PLACE + OBJECT_SIZE * p)
    } else {
        NO_OBJECT
    }
}

// An opened object; a blank one for an object that is not open. Ruled out: the object opened before it; the first one for an object that is not open.
// The condition is a plain fact of a record that was checked; only the crates that work on one use it, and each proves it.
pub fn object_named(bytes: &[u8], object: u8) -> Object
    requires { (length bytes.now ≡ record_size) × ((record_of bytes.now).count ≤ most_open) }
    ensures { result ≡ object_at (record_of bytes.now) object }
{
    object_at(bytes, place(bytes, object))
}

// Whether votes may be asked for each of the first n objects. Ruled out: yes for a written one without its new value; the last one left out.
// The condition is a plain fact of a record that was checked; only the crates that work on one use it, and each proves it.
pub fn all_settled(bytes: &[u8], n: usize) -> bool
    requires bytes_len { length bytes.now ≡ record_size }
    requires n_le_most_open { n ≤ most_open }
    ensures { result ≡ all_settled tree (objects_of bytes.now) n }
{
    for i in 0..n {
        let at = OBJECTS_PLACE + OBJECT_SIZE * i;
        let end = at + OBJECT_SIZE;
        if !is_settled(&bytes[at..end]) {
            return false;
        }
    }
    true
}

// Whether one of the first n objects has a written version without a next one. Ruled out: yes for one that is only read; the first alone looked at.
// The condition is a plain fact of a record that was checked; only the crates that work on one use it, and each proves it.
pub fn any_used_up(bytes: &[u8], n: usize) -> bool
    requires bytes_len { length bytes.now ≡ record_size }
    requires n_le_most_open { n ≤ most_open }
    ensures { result ≡ any_used_up (objects_of bytes.now) n }
{
    for i in 0..n {
        let at = OBJECTS_PLACE + OBJECT_SIZE * i;
        let end = at + OBJECT_SIZE;
        if is_used_up(&bytes[at..end]) {
            return true;
        }
    }
    false
}

// Who must say done: the participants, when never voted the contacted nodes. Ruled out: the present quorum; nobody where no votes were asked for.
pub fn awaited_in(bytes: &[u8]) -> u16
    ensures { result ≡ awaited (record_of bytes.now) }
{
    let participants = octets::get_u16(bytes, PARTICIPANTS);
    if participants == 0 {
        octets::get_u16(bytes, CONTACTED)
    } else {
        participants
    }
}
