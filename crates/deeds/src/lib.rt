// The host's calls on the bytes of a record whose check passed: each finds its number, and changes the pieces of the record that it must.
#![tactic(auto)]

ghost use Rattle.std.specs.Prelude.{◌≡◌, cond, ◌≤◌, ◌<◌, eqb, length, Some, IfOk};
ghost use Rattle.record.specs.Layout.{record_size};
ghost use Rattle.numbers.specs.Sizes.{most_open, highest};
ghost use Rattle.coordinator.specs.State.{place_of};
ghost use Rattle.mask.specs.Mask.{joined};
ghost use Rattle.numbers.specs.Refusal.{first_of};
ghost use Rattle.coordinator.specs.System.{tree};
ghost use Rattle.coordinator.specs.Calls.{begin_refusals, begin_of, open_refusals, open_of, set_refusals, set_of, found_refusals, found_of};
ghost use Rattle.coordinator.specs.Calls.{reselect_refusals, reselect_of, request_commit_refusals, request_commit_of, abort_refusals, abort_of};
ghost use Rattle.record.specs.Record.{record_of, check};
ghost use Rattle.record.specs.Call.{told, told_by, kept};
ghost use Rattle.numbers.specs.Outcome.{number_of};

use coordinator::{ABORTED, BeginWith, IDLE, NO_OBJECT, OPEN, Object, VOTING};
use numbers::{EVERY_NODE, HIGHEST, MOST_OPEN, NODES, NODES_END, OBJECTS_END, Refusal};
use quorum::{Kind, Quorum};
use record::load::distances_of;
use record::look::{all_settled, any_used_up, count, object_named, phase, place};
use record::store::{end_aborted, put_distances, put_front, put_object, put_quorum, turn};
use record::{
    CONTACTED, LIVE, OBJECT_SIZE, OBJECTS_PLACE, OUTCOME, PARTICIPANTS, QUORUM, SERIAL, TIMESTAMP,
};

// The read quorum that a transaction begins with, or why it may not begin. Ruled out: 5 for a record that is busy; 9 where no quorum was chosen.
#[tactic(auto, unfolding(coordinator::specs::Calls::begin_refusals, record::specs::Record::record_of))]
pub fn may_begin(
    bytes: &[u8],
    me: u8,
    w: BeginWith,
    chosen: Option<Quorum>,
) -> Result<Quorum, Refusal>
    ensures number { number_of result ≡ first_of (begin_refusals (record_of bytes.now) me w chosen) }
    ensures quorum { IfOk result (λ q. (chosen ≡ Some q) × ((record_of bytes.now).serial < highest) × ((record_of bytes.now).phase ≡ 0)) }
{
    if NODES_END <= me || EVERY_NODE < w.live {
        return Err(Refusal::Stranger);
    }
    if phase(bytes) != IDLE {
        return Err(Refusal::Busy);
    }
    let outcome = octets::get_u8(bytes, OUTCOME);
    if age::is_early(
        outcome == ABORTED,
        octets::get_u32(bytes, TIMESTAMP),
        w.timestamp,
    ) {
        return Err(Refusal::OutOfTurn);
    }
    let quorum = chosen.ok_or(Refusal::NoQuorum)?;
    if octets::get_u32(bytes, SERIAL) == HIGHEST {
        return Err(Refusal::UsedUp);
    }
    Ok(quorum)
}

// Begins a transaction: an idle record is blank behind the front, so only the front, the distances and the quorum change. Ruled out: a serial that does
// not rise; a byte altered at a refusal.
// The condition is a plain fact of a record that was checked; only the crates that work on one use it, and each proves it.
#[tactic(auto, unfolding(coordinator::specs::Calls::begin_of, coordinator::specs::State::step_of, record::specs::Call::kept))]
pub fn begin(bytes: &mut [u8], me: u8, w: BeginWith) -> Result<u64, Refusal>
    requires { check bytes.old ≡ 0 }
    ensures value { told result ≡ told_by (begin_of tree (record_of bytes.old) me w) }
    ensures bytes_after { bytes.new ≡ kept (begin_of tree (record_of bytes.old) me w) bytes.old }
{
    let distances = w.distances;
    let chosen = quorum::nearest(Kind::Read, me, w.live, &distances);
    let quorum = may_begin(bytes, me, w, chosen)?.mask;
    let serial = octets::get_u32(bytes, SERIAL) + 1;
    let outcome = octets::get_u8(bytes, OUTCOME);
    put_front(bytes, serial, w.timestamp, outcome, OPEN, w.live);
    put_distances(bytes, distances);
    put_quorum(bytes, quorum, 0, 0);
    Ok(u64::from(quorum))
}

// Whether an object may be opened, or why not. Ruled out: an object that is open already taken; 7 for a ninth one that is open already.
// The condition is a plain fact of a record that was checked; only the crates that work on one use it, and each proves it.
#[tactic(auto, unfolding(coordinator::specs::Calls::open_refusals))]
pub fn may_open(bytes: &[u8], me: u8, object: u8) -> Result<(), Refusal>
    requires { (length bytes.now ≡ record_size) × ((record_of bytes.now).count ≤ most_open) }
    ensures number { number_of result ≡ first_of (open_refusals (record_of bytes.now) me object) }
    ensures room { IfOk result (λ _. (record_of bytes.now).count < most_open) }
{
    if NODES_END <= me {
        return Err(Refusal::Stranger);
    }
    if phase(bytes) != OPEN {
        return Err(Refusal::OutOfTurn);
    }
    if OBJECTS_END <= object || place(bytes, object) < MOST_OPEN {
        return Err(Refusal::NoSuchObject);
    }
    if MOST_OPEN <= count(bytes) {
        return Err(Refusal::EightOpen);
    }
    Ok(())
}

// Opens an object in a mode: one object more, and the present read quorum contacted. Ruled out: an object opened twice; another object altered.
// The condition is a plain fact of a record that was checked; only the crates that work on one use it, and each proves it.
#[tactic(auto, using(crate::proofs::Kept::few), unfolding(coordinator::specs::Calls::open_of, coordinator::specs::State::step_of, record::specs::Call::kept))]
pub fn open(bytes: &mut [u8], me: u8, object: u8, mode: u8) -> Result<u64, Refusal>
    requires { check bytes.old ≡ 0 }
    ensures value { told result ≡ told_by (open_of (record_of bytes.old) me object mode) }
    ensures bytes_after { bytes.new ≡ kept (open_of (record_of bytes.old) me object mode) bytes.old }
{
    may_open(bytes, me, object)?;
    let n = count(bytes);
    let quorum = octets::get_u16(bytes, QUORUM);
    let contacted = mask::join(octets::get_u16(bytes, CONTACTED), quorum);
    put_quorum(bytes, quorum, contacted, n + 1);
    let x = Object {
        object,
        mode,
        ..NO_OBJECT
    };
    put_object(bytes, OBJECTS_PLACE + OBJECT_SIZE * n, x);
    Ok(0)
}

// Whether an object may be given a value, or why not. Ruled out: an object that is only read given one; 6 before 5.
// The condition is a plain fact of a record that was checked; only the crates that work on one use it, and each proves it.
#[tactic(auto, unfolding(coordinator::specs::Calls::set_refusals))]
pub fn may_set(bytes: &[u8], me: u8, object: u8) -> Result<(), Refusal>
    requires { (length bytes.now ≡ record_size) × ((record_of bytes.now).count ≤ most_open) }
    ensures number { number_of result ≡ first_of (set_refusals (record_of bytes.now) me object) }
    ensures here { IfOk result (λ _. place_of (record_of bytes.now) object < most_open) }
{
    if NODES_END <= me {
        return Err(Refusal::Stranger);
    }
    if phase(bytes) != OPEN {
        return Err(Refusal::OutOfTurn);
    }
    if MOST_OPEN <= place(bytes, object) || object_named(bytes, object).mode == 0 {
        return Err(Refusal::NoSuchObject);
    }
    Ok(())
}

// Gives a written object its new value. Ruled out: the value found overwritten; an object that is only read given one.
// The condition is a plain fact of a record that was checked; only the crates that work on one use it, and each proves it.
#[tactic(auto, using(crate::proofs::Kept::few), unfolding(coordinator::specs::Calls::set_of, coordinator::specs::State::step_of, record::specs::Call::kept))]
pub fn set_value(bytes: &mut [u8], me: u8, object: u8, value: u64) -> Result<u64, Refusal>
    requires { check bytes.old ≡ 0 }
    ensures value { told result ≡ told_by (set_of (record_of bytes.old) me object value) }
    ensures bytes_after { bytes.new ≡ kept (set_of (record_of bytes.old) me object value) bytes.old }
{
    may_set(bytes, me, object)?;
    let p = place(bytes, object);
    let mut x = object_named(bytes, object);
    x.given = true;
    x.new = value;
    put_object(bytes, OBJECTS_PLACE + OBJECT_SIZE * p, x);
    Ok(0)
}

// Whether the value found for an object may be told, or why not. Ruled out: 11 for an object that is ready; 11 for one that is not open.
// The condition is a plain fact of a record that was checked; only the crates that work on one use it, and each proves it.
#[tactic(auto, unfolding(coordinator::specs::Calls::found_refusals))]
pub fn may_tell(bytes: &[u8], me: u8, object: u8) -> Result<(), Refusal>
    requires { (length bytes.now ≡ record_size) × ((record_of bytes.now).count ≤ most_open) }
    ensures { number_of result ≡ first_of (found_refusals tree (record_of bytes.now) me object) }
{
    if NODES_END <= me {
        return Err(Refusal::Stranger);
    }
    if phase(bytes) == IDLE {
        return Err(Refusal::OutOfTurn);
    }
    if MOST_OPEN <= place(bytes, object) {
        return Err(Refusal::NoSuchObject);
    }
    if !coordinator::is_ready(object_named(bytes, object)) {
        return Err(Refusal::NotReady);
    }
    Ok(())
}

// Answers the value found for a ready object. Ruled out: the new value; number 0 for an object that is not ready.
// The condition is a plain fact of a record that was checked; only the crates that work on one use it, and each proves it.
#[tactic(auto, using(crate::proofs::Kept::few), unfolding(coordinator::specs::Calls::found_of, coordinator::specs::State::step_of))]
pub fn found(bytes: &[u8], me: u8, object: u8) -> Result<u64, Refusal>
    requires { check bytes.now ≡ 0 }
    ensures { told result ≡ told_by (found_of tree (record_of bytes.now) me object) }
{
    may_tell(bytes, me, object)?;
    Ok(object_named(bytes, object).value)
}

// The read quorum that is taken in place of the present one, or why none is. Ruled out: one taken where none was chosen; 5 for a mask that has more
// than nodes.
#[tactic(auto, unfolding(coordinator::specs::Calls::reselect_refusals))]
pub fn may_reselect(
    bytes: &[u8],
    me: u8,
    live: u16,
    chosen: Option<Quorum>,
) -> Result<Quorum, Refusal>
    ensures number { number_of result ≡ first_of (reselect_refusals (record_of bytes.now) me live chosen) }
    ensures quorum { IfOk result (λ q. chosen ≡ Some q) }
{
    if NODES_END <= me || EVERY_NODE < live {
        return Err(Refusal::Stranger);
    }
    if phase(bytes) != OPEN {
        return Err(Refusal::OutOfTurn);
    }
    chosen.ok_or(Refusal::NoQuorum)
}

// Takes a fresh live mask and distances: they change, and with them the quorum and the contacted nodes. Ruled out: the distances kept as they were;
// the new quorum not contacted though an object is open.
// The condition is a plain fact of a record that was checked; only the crates that work on one use it, and each proves it.
#[tactic(auto, unfolding(coordinator::specs::Calls::reselect_of, coordinator::specs::State::step_of, record::specs::Call::kept))]
pub fn reselect(
    bytes: &mut [u8],
    me: u8,
    live: u16,
    distances: [u16; NODES],
) -> Result<u64, Refusal>
    requires { check bytes.old ≡ 0 }
    ensures value { told result ≡ told_by (reselect_of tree (record_of bytes.old) me live distances) }
    ensures bytes_after { bytes.new ≡ kept (reselect_of tree (record_of bytes.old) me live distances) bytes.old }
{
    let chosen = quorum::nearest(Kind::Read, me, live, &distances);
    let quorum = may_reselect(bytes, me, live, chosen)?.mask;
    let n = count(bytes);
    let contacted = coordinator::contacted_after(n, octets::get_u16(bytes, CONTACTED), quorum);
    octets::put_u16(bytes, LIVE, live);
    put_distances(bytes, distances);
    put_quorum(bytes, quorum, contacted, n);
    Ok(u64::from(quorum))
}

// The write quorum that is asked for votes, or why none is: 11, then 8, then 9.
#[tactic(auto, unfolding(coordinator::specs::Calls::request_commit_refusals, record::specs::Record::record_of))]
fn may_request_of(bytes: &[u8], me: u8, chosen: Option<Quorum>) -> Result<Quorum, Refusal>
    requires { (length bytes.now ≡ record_size) × ((record_of bytes.now).count ≤ most_open) }
    ensures number { number_of result ≡ first_of (request_commit_refusals tree (record_of bytes.now) me chosen) }
    ensures quorum { IfOk result (λ q. chosen ≡ Some q) }
{
    if NODES_END <= me {
        return Err(Refusal::Stranger);
    }
    if phase(bytes) != OPEN {
        return Err(Refusal::OutOfTurn);
    }
    let n = count(bytes);
    if n == 0 || !all_settled(bytes, n) {
        return Err(Refusal::NotReady);
    }
    let quorum = chosen.ok_or(Refusal::NoQuorum)?;
    if any_used_up(bytes, n) {
        return Err(Refusal::UsedUp);
    }
    Ok(quorum)
}

// The nearest write quorum for a node, by the live mask and the distances that its record has.
fn write_quorum(bytes: &[u8], me: u8) -> Option<Quorum>
    ensures { result ≡ tree.nearest_write me (record_of bytes.now).live (record_of bytes.now).distances }
{
    let distances = distances_of(bytes);
    let live = octets::get_u16(bytes, LIVE);
    quorum::nearest(Kind::Write, me, live, &distances)
}

// The write quorum that a request to commit would ask for votes, or why it would ask none; no byte is altered. Ruled out: 8 before 11; a request taken
// with an object that is not ready.
// The condition is a plain fact of a record that was checked; only the crates that work on one use it, and each proves it.
#[tactic(auto, using(crate::proofs::Kept::few), unfolding(coordinator::specs::Calls::request_commit_of, coordinator::specs::State::step_of))]
pub fn may_request(bytes: &[u8], me: u8) -> Result<Quorum, Refusal>
    requires { check bytes.now ≡ 0 }
    ensures number { number_of result ≡ (request_commit_of tree (record_of bytes.now) me).number }
    ensures quorum { IfOk result (λ q. tree.nearest_write me (record_of bytes.now).live (record_of bytes.now).distances ≡ Some q) }
{
    may_request_of(bytes, me, write_quorum(bytes, me))
}

// Asks for votes: the phase and the participants alone change. Ruled out: the participants without a contacted node; a phase that stays open.
// The condition is a plain fact of a record that was checked; only the crates that work on one use it, and each proves it.
#[tactic(auto, unfolding(coordinator::specs::Calls::request_commit_of, coordinator::specs::State::step_of, record::specs::Call::kept))]
pub fn request_commit(bytes: &mut [u8], me: u8) -> Result<u64, Refusal>
    requires { check bytes.old ≡ 0 }
    ensures value { told result ≡ told_by (request_commit_of tree (record_of bytes.old) me) }
    ensures bytes_after { bytes.new ≡ kept (request_commit_of tree (record_of bytes.old) me) bytes.old }
{
    let quorum = may_request(bytes, me)?;
    let participants = mask::join(quorum.mask, octets::get_u16(bytes, CONTACTED));
    turn(bytes, octets::get_u8(bytes, OUTCOME), VOTING);
    octets::put_u16(bytes, PARTICIPANTS, participants);
    Ok(u64::from(participants))
}

// Whether the transaction may be given up, or why not. Ruled out: a finishing one given up; 5 while voting.
#[tactic(auto, unfolding(coordinator::specs::Calls::abort_refusals))]
pub fn may_abort(bytes: &[u8], me: u8) -> Result<(), Refusal>
    ensures { number_of result ≡ first_of (abort_refusals (record_of bytes.now) me) }
{
    if NODES_END <= me {
        return Err(Refusal::Stranger);
    }
    if phase(bytes) != OPEN && phase(bytes) != VOTING {
        return Err(Refusal::OutOfTurn);
    }
    Ok(())
}

// Gives the transaction up. Ruled out: a finishing one aborted; number 0 with the record left as it was.
// The condition is a plain fact of a record that was checked; only the crates that work on one use it, and each proves it.
#[tactic(auto, unfolding(coordinator::specs::Calls::abort_of, coordinator::specs::State::step_of, record::specs::Call::kept))]
pub fn abort(bytes: &mut [u8], me: u8) -> Result<u64, Refusal>
    requires { check bytes.old ≡ 0 }
    ensures value { told result ≡ told_by (abort_of (record_of bytes.old) me) }
    ensures bytes_after { bytes.new ≡ kept (abort_of (record_of bytes.old) me) bytes.old }
{
    may_abort(bytes, me)?;
    end_aborted(bytes);
    Ok(0)
}
