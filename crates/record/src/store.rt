// A record written over bytes, piece by piece.
ghost use Rattle.std.specs.Prelude.{◌≡◌, cond, ◌<◌, ◌%◌, length, set};
ghost use Rattle.std.proofs.lemmas.List.Edits.{sets};
ghost use Rattle.numbers.specs.Outcome.{number_of};
ghost use Rattle.numbers.specs.Sizes.{nodes, most_open};
ghost use Rattle.octets.specs.Octets.{le};
ghost use Rattle.wire.specs.Encode.{together};
ghost use Rattle.coordinator.specs.State.{idle_after};
ghost use Rattle.coordinator.specs.Calls.{ended_aborted};
ghost use Rattle.record.specs.Layout.{outcome_place, phase_place, distances_place, quorum_place, objects_place, participants_place, rivals_place, record_size};
ghost use Rattle.record.specs.Record.{object_bytes, front_of, quorum_of, votes_of, record_of, bytes_of, written, check};
ghost use Rattle.record.specs.Call.{blank_number, blank_after};

use crate::look::awaited_in;
use crate::{
    CAME_IN, CONTACTED, COUNT, DISTANCE_SIZE, DISTANCES, DONE, GIVEN_IN, LIVE, MODE_IN, NEW_IN,
    OBJECT_SIZE, OBJECTS_PLACE, OUTCOME, PARTICIPANTS, PHASE, QUORUM, RIVAL_SIZE, RIVALS, SERIAL,
    SIZE, TIMESTAMP, VALUE_IN, VERSION_IN, YES,
};
use coordinator::{ABORTED, Coordinator, FINISHING, IDLE, Object};
use numbers::{MOST_OPEN, NODES, Refusal};

// The low byte of a count.
fn low(n: usize) -> u8
    ensures { result ≡ n % 256 }
{
    (n % 256) as u8
}

// An object at a place. Ruled out: a byte of the object behind it altered; value and new value the other way round.
// The condition holds of every place in a record; only the crates that work on one use it, and each proves it.
pub fn put_object(bytes: &mut [u8], at: usize, x: Object)
    requires { at < 8192 }
    ensures { bytes.new ≡ sets bytes.old at (object_bytes x) }
{
    octets::put_u8(bytes, at, x.object);
    octets::put_u8(bytes, at + MODE_IN, x.mode);
    octets::put_u16(bytes, at + CAME_IN, x.came);
    octets::put_u32(bytes, at + VERSION_IN, x.version);
    octets::put_u64(bytes, at + VALUE_IN, x.value);
    octets::put_u8(bytes, at + GIVEN_IN, u8::from(x.given));
    octets::put_u64(bytes, at + NEW_IN, x.new);
}

// The distances. Ruled out: the last one left as it was; the quorum behind them altered.
pub fn put_distances(bytes: &mut [u8], list: [u16; NODES])
    ensures bytes_after { bytes.new ≡ sets bytes.old distances_place (together (le 2) list) }
    ensures list_len { length list ≡ nodes }
{
    for i in 0..NODES {
        octets::put_u16(bytes, DISTANCES + DISTANCE_SIZE * i, list[i]);
    }
}

// The objects.
fn put_objects(bytes: &mut [u8], list: [Object; MOST_OPEN])
    ensures bytes_after { bytes.new ≡ sets bytes.old objects_place (together object_bytes list) }
    ensures list_len { length list ≡ most_open }
{
    for i in 0..MOST_OPEN {
        let x = list[i];
        put_object(bytes, OBJECTS_PLACE + OBJECT_SIZE * i, x);
    }
}

// The rivals' serials. Ruled out: one left as it was; who said done altered.
pub fn put_rivals(bytes: &mut [u8], list: [u32; NODES])
    ensures bytes_after { bytes.new ≡ sets bytes.old rivals_place (together (le 4) list) }
    ensures list_len { length list ≡ nodes }
{
    for i in 0..NODES {
        octets::put_u32(bytes, RIVALS + RIVAL_SIZE * i, list[i]);
    }
}

// The numbers in front of the distances. Ruled out: serial and timestamp the other way round; a distance altered.
pub fn put_front(bytes: &mut [u8], serial: u32, timestamp: u32, outcome: u8, phase: u8, live: u16)
    ensures { bytes.new ≡ sets bytes.old 0 (front_of serial timestamp outcome phase live) }
{
    octets::put_u32(bytes, SERIAL, serial);
    octets::put_u32(bytes, TIMESTAMP, timestamp);
    octets::put_u8(bytes, OUTCOME, outcome);
    octets::put_u8(bytes, PHASE, phase);
    octets::put_u16(bytes, LIVE, live);
}

// The numbers between the distances and the objects. Ruled out: quorum and contacted nodes the other way round; an object altered.
pub fn put_quorum(bytes: &mut [u8], quorum: u16, contacted: u16, count: usize)
    ensures { bytes.new ≡ sets bytes.old quorum_place (quorum_of quorum contacted count) }
{
    octets::put_u16(bytes, QUORUM, quorum);
    octets::put_u16(bytes, CONTACTED, contacted);
    octets::put_u8(bytes, COUNT, low(count));
}

// The numbers behind the objects.
fn put_votes(bytes: &mut [u8], participants: u16, yes: u16, done: u16)
    ensures { bytes.new ≡ sets bytes.old participants_place (votes_of participants yes done) }
{
    octets::put_u16(bytes, PARTICIPANTS, participants);
    octets::put_u16(bytes, YES, yes);
    octets::put_u16(bytes, DONE, done);
}

// The whole record from the front on.
fn fill(bytes: &mut [u8], c: Coordinator)
    ensures bytes_after { bytes.new ≡ sets bytes.old 0 (bytes_of c) }
    ensures c_len { length (bytes_of c) ≡ record_size }
{
    let distances = c.distances;
    let objects = c.objects;
    let rivals = c.rivals;
    put_front(bytes, c.serial, c.timestamp, c.outcome, c.phase, c.live);
    put_distances(bytes, distances);
    put_quorum(bytes, c.quorum, c.contacted, c.count);
    put_objects(bytes, objects);
    put_votes(bytes, c.participants, c.yes, c.done);
    put_rivals(bytes, rivals);
}

// Writes a record over bytes of its length; others are left alone. Ruled out: yes and done the other way round; a byte left as it was.
pub fn write(bytes: &mut [u8], c: Coordinator)
    ensures { bytes.new ≡ written c bytes.old }
{
    if bytes.len() == SIZE {
        fill(bytes, c);
    }
}

// Writes a blank record; refused for another length. Ruled out: a byte left as it was; a byte written where the length is another.
#[tactic(auto, unfolding(crate::specs::Call::blank_number, crate::specs::Call::blank_after))]
pub fn blank(bytes: &mut [u8]) -> Result<(), Refusal>
    ensures value { number_of result ≡ blank_number bytes.old }
    ensures bytes_after { bytes.new ≡ blank_after bytes.old }
{
    if bytes.len() != SIZE {
        return Err(Refusal::Length);
    }
    // A blank record is all zeros.
    bytes.fill(0);
    Ok(())
}

// Another outcome and phase. Ruled out: the two the other way round; the live nodes behind them altered.
pub fn turn(bytes: &mut [u8], outcome: u8, at: u8)
    ensures { bytes.new ≡ set (set bytes.old outcome_place outcome) phase_place at }
{
    octets::put_u8(bytes, OUTCOME, outcome);
    octets::put_u8(bytes, PHASE, at);
}

// The transaction is over: only serial, timestamp and outcome stay. Ruled out: the objects kept; the serial back at 0.
// The condition is a plain fact of a record that was checked; only the crates that work on one use it, and each proves it.
pub fn become_idle(bytes: &mut [u8], outcome: u8)
    requires { length bytes.old ≡ record_size }
    ensures { bytes.new ≡ bytes_of (idle_after (record_of bytes.old).serial (record_of bytes.old).timestamp outcome) }
{
    let serial = octets::get_u32(bytes, SERIAL);
    let timestamp = octets::get_u32(bytes, TIMESTAMP);
    bytes.fill(0);
    put_front(bytes, serial, timestamp, outcome, IDLE, 0);
}

// The transaction ends aborted: finishing until every awaited node says done; with nobody awaited, idle at once.
// Ruled out: idle while a node is awaited; a commit.
// The condition is a plain fact of a record that was checked; only the crates that work on one use it, and each proves it.
pub fn end_aborted(bytes: &mut [u8])
    requires { check bytes.old ≡ 0 }
    ensures { bytes.new ≡ bytes_of (ended_aborted (record_of bytes.old)) }
{
    if awaited_in(bytes) == 0 {
        become_idle(bytes, ABORTED);
    } else {
        turn(bytes, ABORTED, FINISHING);
    }
}
