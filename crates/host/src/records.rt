// A coordinator's record for C: checked, made blank, each call on it (some by the settings beside it), what is due, what it says, and what waits. Each
// function states the same equation as what it wraps.
ghost use Rattle.std.specs.Prelude.{◌≡◌, cond, length, get_or};
ghost use Rattle.octets.specs.Signed.{bits_of};
ghost use Rattle.coordinator.specs.declared.Coordinator.{Coordinator};
ghost use Rattle.coordinator.specs.System.{tree};
ghost use Rattle.coordinator.specs.State.{no_object, ready};
ghost use Rattle.coordinator.specs.Calls.{found_of, abort_of};
ghost use Rattle.arrivals.specs.Receive.{receive_of};
ghost use Rattle.record.specs.Record.{check, shown};
ghost use Rattle.record.specs.Call.{called_of, record_after, blank_number, blank_after};
ghost use Rattle.record_arrive.specs.Call.{received_of};
ghost use Rattle.record_due.specs.Call.{record_due, record_due_buffer};
ghost use Rattle.increments.specs.Deeds.{reads, writes, values};
ghost use Rattle.frontend.specs.Plan.{begin, batch, edit, request, front_told, front_record};
ghost use Rattle.frontend.specs.Tell.{waiting_of};
ghost use Rattle.host.specs.Records.{answer_with, bytes_with, begun_with, bytes_begun, settings_begun, begin_with, reselect_step, value_of};

use crate::{DISTANCES, distances_of};
use coordinator::BeginWith;
use letters::Written;
use record::Called;

// What a call for a value answers: a number, and where it is 0 the value.
#[repr(C)]
#[derive(Clone, Copy)]
pub struct Value {
    pub number: u8,
    pub value: i64,
}

// The number of a record. Ruled out: 2 for bytes of another length; 0 for a record that breaks a clause.
pub fn senna_check_record(bytes: &[u8]) -> u8
    ensures { result ≡ check bytes.now }
{
    numbers::number(record::check(bytes))
}

// Makes a record blank. Ruled out: a byte of a buffer of another length altered; a serial kept.
pub fn senna_blank_record(bytes: &mut [u8]) -> u8
    ensures value { result ≡ blank_number bytes.old }
    ensures bytes_after { bytes.new ≡ blank_after bytes.old }
{
    numbers::number(record::blank(bytes))
}

// The distances have another length.
fn wrong_length() -> Called
    ensures { result ≡ record { number = 1; answer = 0 } }
{
    Called {
        number: numbers::LENGTH,
        answer: 0,
    }
}

// Begins a transaction of the host's own on a day, at a minute; answers the chosen read quorum. Ruled out: 10 for distances of 25 bytes; 13 where the record
// is busy.
pub fn senna_coordinator_begin(
    bytes: &mut [u8],
    settings: &mut [u8],
    me: u8,
    live: u16,
    distances: &[u8],
    timestamp: u32,
    day: u32,
    minute: u16,
) -> Called
    ensures value { result ≡ begun_with distances.now bytes.old settings.old me
        (begin (begin_with live distances.now timestamp) day minute) }
    ensures bytes_after { bytes.new ≡ bytes_begun distances.now bytes.old settings.old me
        (begin (begin_with live distances.now timestamp) day minute) }
    ensures settings_after { settings.new ≡ settings_begun distances.now bytes.old settings.old me
        (begin (begin_with live distances.now timestamp) day minute) }
{
    if distances.len() != DISTANCES {
        return wrong_length();
    }
    let d = distances_of(distances);
    let w = BeginWith {
        live,
        distances: d,
        timestamp,
    };
    frontend::begin(bytes, settings, me, w, day, minute)
}

// Begins a batch of weights on a day, at a minute; answers the chosen read quorum. Ruled out: 2 for distances of 25 bytes beside damaged settings; a batch
// kept as the host's own.
pub fn senna_coordinator_batch(
    bytes: &mut [u8],
    settings: &mut [u8],
    me: u8,
    live: u16,
    distances: &[u8],
    timestamp: u32,
    day: u32,
    minute: u16,
    list: &[u8],
) -> Called
    ensures value { result ≡ begun_with distances.now bytes.old settings.old me
        (batch (begin_with live distances.now timestamp) day minute list.now) }
    ensures bytes_after { bytes.new ≡ bytes_begun distances.now bytes.old settings.old me
        (batch (begin_with live distances.now timestamp) day minute list.now) }
    ensures settings_after { settings.new ≡ settings_begun distances.now bytes.old settings.old me
        (batch (begin_with live distances.now timestamp) day minute list.now) }
{
    if distances.len() != DISTANCES {
        return wrong_length();
    }
    let d = distances_of(distances);
    let w = BeginWith {
        live,
        distances: d,
        timestamp,
    };
    frontend::batch(bytes, settings, me, w, day, minute, list)
}

// Takes a fresh live mask and distances; answers the chosen read quorum. Ruled out: 8 for distances of 25 bytes; the old quorum answered.
pub fn senna_coordinator_reselect(bytes: &mut [u8], me: u8, live: u16, distances: &[u8]) -> Called
    ensures value { result ≡ answer_with distances.now (reselect_step me live distances.now) bytes.old }
    ensures bytes_after { bytes.new ≡ bytes_with distances.now (reselect_step me live distances.now) bytes.old }
{
    if distances.len() != DISTANCES {
        return wrong_length();
    }
    let d = distances_of(distances);
    Called::from(record_calls::reselect(bytes, me, live, d))
}

// Opens an object to read it. Ruled out: an object opened on a batch; a damaged record taken.
pub fn senna_coordinator_open_read(bytes: &mut [u8], settings: &[u8], me: u8, object: u8) -> Called
    ensures value { result ≡ front_told bytes.old settings.now me (edit (reads object)) }
    ensures bytes_after { bytes.new ≡ front_record bytes.old settings.now me (edit (reads object)) }
{
    frontend::open_read(bytes, settings, me, object)
}

// Opens an object to write it. Ruled out: an open to read; a ninth object taken.
pub fn senna_coordinator_open_write(bytes: &mut [u8], settings: &[u8], me: u8, object: u8) -> Called
    ensures value { result ≡ front_told bytes.old settings.now me (edit (writes object)) }
    ensures bytes_after { bytes.new ≡ front_record bytes.old settings.now me (edit (writes object)) }
{
    frontend::open_write(bytes, settings, me, object)
}

// Gives a written object its new value. Ruled out: the value with its sign lost; a batch's grams overwritten.
pub fn senna_coordinator_set_value(
    bytes: &mut [u8],
    settings: &[u8],
    me: u8,
    object: u8,
    value: i64,
) -> Called
    ensures value { result ≡ front_told bytes.old settings.now me (edit (values object (bits_of value))) }
    ensures bytes_after { bytes.new ≡ front_record bytes.old settings.now me (edit (values object (bits_of value))) }
{
    frontend::set_value(bytes, settings, me, object, octets::bits(value))
}

// Asks for votes; answers the participants, or aborted beside 9 where a batch is given up. Ruled out: 8 before 11; a sum that wraps.
pub fn senna_coordinator_request_commit(bytes: &mut [u8], settings: &[u8], me: u8) -> Called
    ensures value { result ≡ front_told bytes.old settings.now me request }
    ensures bytes_after { bytes.new ≡ front_record bytes.old settings.now me request }
{
    frontend::request_commit(bytes, settings, me)
}

// Gives the transaction up. Ruled out: a finishing one aborted; a damaged record taken.
pub fn senna_coordinator_abort(bytes: &mut [u8], me: u8) -> Called
    ensures value { result ≡ called_of (λ (c : Coordinator). abort_of c me) bytes.old }
    ensures bytes_after { bytes.new ≡ record_after (λ (c : Coordinator). abort_of c me) bytes.old }
{
    Called::from(record_calls::abort(bytes, me))
}

// Delivers a message; answers what it brought about. Ruled out: commit by a majority; 2 for a damaged record and a message of 14 bytes.
pub fn senna_coordinator_receive(bytes: &mut [u8], me: u8, message: &[u8]) -> Called
    ensures value { result ≡ received_of me message.now bytes.old }
    ensures bytes_after { bytes.new ≡ record_after (λ (c : Coordinator). receive_of tree c me message.now) bytes.old }
{
    Called::from(record_arrive::receive(bytes, me, message))
}

// Answers the value found for a ready object. Ruled out: the new value; a value with its sign lost.
pub fn senna_coordinator_found(bytes: &mut [u8], me: u8, object: u8) -> Value
    ensures value { result ≡ value_of (called_of (λ (c : Coordinator). found_of tree c me object) bytes.old) }
    ensures bytes_after { bytes.new ≡ record_after (λ (c : Coordinator). found_of tree c me object) bytes.old }
{
    let x = Called::from(record_calls::found(bytes, me, object));
    Value {
        number: x.number,
        value: octets::signed(x.answer),
    }
}

// Writes what is due to a node. Ruled out: 2 before 1 for a short buffer; a buffer altered where nothing is due.
pub fn senna_coordinator_due(bytes: &[u8], me: u8, node: u8, object: u8, out: &mut [u8]) -> Written
    ensures value { result ≡ record_due bytes.now me node object (length out.old) }
    ensures out_after { out.new ≡ record_due_buffer bytes.now me node object out.old }
{
    record_due::write_due(bytes, me, node, object, out)
}

// What a record says; zeros for bytes that are no record. Each rules out, among others: the field beside it; a damaged record's own bytes.
pub fn senna_coordinator_phase(bytes: &[u8]) -> u8
    ensures { result ≡ (shown bytes.now).phase }
{
    record::phase(bytes)
}

pub fn senna_coordinator_serial(bytes: &[u8]) -> u32
    ensures { result ≡ (shown bytes.now).serial }
{
    record::serial(bytes)
}

pub fn senna_coordinator_timestamp(bytes: &[u8]) -> u32
    ensures { result ≡ (shown bytes.now).timestamp }
{
    record::timestamp(bytes)
}

pub fn senna_coordinator_outcome(bytes: &[u8]) -> u8
    ensures { result ≡ (shown bytes.now).outcome }
{
    record::outcome(bytes)
}

pub fn senna_coordinator_participants(bytes: &[u8]) -> u16
    ensures { result ≡ (shown bytes.now).participants }
{
    record::participants(bytes)
}

pub fn senna_coordinator_count(bytes: &[u8]) -> usize
    ensures { result ≡ (shown bytes.now).count }
{
    record::count(bytes)
}

pub fn senna_coordinator_object(bytes: &[u8], i: u8) -> u8
    ensures { result ≡ (get_or (shown bytes.now).objects i no_object).object }
{
    record::object(bytes, i)
}

pub fn senna_coordinator_mode(bytes: &[u8], i: u8) -> u8
    ensures { result ≡ (get_or (shown bytes.now).objects i no_object).mode }
{
    record::mode(bytes, i)
}

pub fn senna_coordinator_is_ready(bytes: &[u8], i: u8) -> u8
    ensures { result ≡ cond (ready tree (get_or (shown bytes.now).objects i no_object)) 1 0 }
{
    if record::is_ready(bytes, i) { 1 } else { 0 }
}

// The tenths that wait in a class. Ruled out: those that a batch leaves over before it is committed; 0 for a class that the table does not have.
pub fn senna_coordinator_waiting(bytes: &[u8], settings: &[u8], class: u8) -> Called
    ensures { result ≡ waiting_of bytes.now settings.now class }
{
    frontend::waiting(bytes, settings, class)
}
