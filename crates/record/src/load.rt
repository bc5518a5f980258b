// The record that bytes are. Bytes that are not there read as 0.
ghost use Rattle.std.specs.Prelude.{◌≡◌, ◌<◌};
ghost use Rattle.record.specs.Record.{object_of, distances_of, objects_of, rivals_of, record_of};

use crate::{
    CAME_IN, CONTACTED, COUNT, DISTANCE_SIZE, DISTANCES, DONE, GIVEN_IN, LIVE, MODE_IN, NEW_IN,
    OBJECT_SIZE, OBJECTS_PLACE, OUTCOME, PARTICIPANTS, PHASE, QUORUM, RIVAL_SIZE, RIVALS, SERIAL,
    TIMESTAMP, VALUE_IN, VERSION_IN, YES,
};
use coordinator::{Coordinator, Object};
use numbers::{MOST_OPEN, NODES};

// The object whose bytes these are.
fn object_in(x: &[u8]) -> Object
    ensures { result ≡ object_of x.now 0 }
{
    Object {
        object: octets::get_u8(x, 0),
        mode: octets::get_u8(x, MODE_IN),
        came: octets::get_u16(x, CAME_IN),
        version: octets::get_u32(x, VERSION_IN),
        value: octets::get_u64(x, VALUE_IN),
        given: octets::get_u8(x, GIVEN_IN) == 1,
        new: octets::get_u64(x, NEW_IN),
    }
}

// The object that starts at a place: a part of a size that the compiler knows, or what is left of the bytes.
pub(crate) fn object_of(bytes: &[u8], at: usize) -> Object
    requires { at < 8192 }
    ensures { result ≡ object_of bytes.now at }
{
    let end = at + OBJECT_SIZE;
    if end <= bytes.len() {
        return object_in(&bytes[at..end]);
    }
    if at < bytes.len() {
        return object_in(&bytes[at..]);
    }
    object_in(&bytes[..0])
}

// The distances. Ruled out: the quorum taken for the first of them; the bytes of one in the other order.
pub fn distances_of(bytes: &[u8]) -> [u16; NODES]
    ensures { result ≡ distances_of bytes.now }
{
    std::array::from_fn(|i| octets::get_u16(bytes, DISTANCES + DISTANCE_SIZE * i))
}

// The objects.
fn objects_of(bytes: &[u8]) -> [Object; MOST_OPEN]
    ensures { result ≡ objects_of bytes.now }
{
    std::array::from_fn(|i| object_of(bytes, OBJECTS_PLACE + OBJECT_SIZE * i))
}

// The rivals' serials. Ruled out: another owner's at a place; the last one left out.
pub fn rivals_of(bytes: &[u8]) -> [u32; NODES]
    ensures { result ≡ rivals_of bytes.now }
{
    std::array::from_fn(|i| octets::get_u32(bytes, RIVALS + RIVAL_SIZE * i))
}

// A byte as a count. Ruled out: a count of another byte; a byte above 127 taken for one below 0.
pub fn wide(x: u8) -> usize
    ensures { result ≡ x }
{
    usize::from(x)
}

// The record. Ruled out: yes and done the other way round; an object's value found taken for its new one.
pub fn read(bytes: &[u8]) -> Coordinator
    ensures { result ≡ record_of bytes.now }
{
    let distances = distances_of(bytes);
    let objects = objects_of(bytes);
    let rivals = rivals_of(bytes);
    Coordinator {
        serial: octets::get_u32(bytes, SERIAL),
        timestamp: octets::get_u32(bytes, TIMESTAMP),
        outcome: octets::get_u8(bytes, OUTCOME),
        phase: octets::get_u8(bytes, PHASE),
        live: octets::get_u16(bytes, LIVE),
        distances,
        quorum: octets::get_u16(bytes, QUORUM),
        contacted: octets::get_u16(bytes, CONTACTED),
        count: wide(octets::get_u8(bytes, COUNT)),
        objects,
        participants: octets::get_u16(bytes, PARTICIPANTS),
        yes: octets::get_u16(bytes, YES),
        done: octets::get_u16(bytes, DONE),
        rivals,
    }
}
