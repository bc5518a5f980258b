// What a delivered message changes in the bytes of a record: the kind decides, and a message that does not fit changes nothing.
ghost use Rattle.std.specs.Prelude.{◌≡◌, cond, ◌≤◌, length};
ghost use Rattle.record.specs.Layout.{record_size};
ghost use Rattle.numbers.specs.Sizes.{nodes, most_open};
ghost use Rattle.mask.specs.Mask.{within};
ghost use Rattle.coordinator.specs.System.{tree};
ghost use Rattle.arrivals.specs.Receive.{answers, copy_fits, copy_taken, vote_taken, done_taken, yield_taken, delivered};
ghost use Rattle.record_arrive.specs.Change.{with_rivals, raised_by, yes_taken};
ghost use Rattle.record.specs.Record.{record_of, bytes_of, check};
ghost use Rattle.record.specs.Call.{called, told_by, kept};

use coordinator::{ABORTED, COMMITTED, FINISHED, FINISHING, NOTHING, OPEN, READY, VOTING};
use numbers::{MOST_OPEN, both, either};
use record::load::rivals_of;
use record::look::{awaited_in, object_named, phase, place};
use record::store::{become_idle, end_aborted, put_object, put_rivals, turn};
use record::{
    CONTACTED, DONE, OBJECT_SIZE, OBJECTS_PLACE, OUTCOME, PARTICIPANTS, SERIAL, TIMESTAMP, YES,
};

// An answer to this transaction, in this phase, from one of these nodes.
fn is_answer(bytes: &[u8], at: u8, nodes: u16, m: &[u8]) -> bool
    ensures { result ≡ answers (record_of bytes.now) at nodes m.now }
{
    let known = mask::has(nodes, wire::from(m));
    let same = both(wire::stamp(m) == octets::get_u32(bytes, TIMESTAMP), known);
    let named = wire::serial(m) == octets::get_u32(bytes, SERIAL);
    both(phase(bytes) == at, both(named, same))
}

// Whether a copy counts.
fn copy_fits(bytes: &[u8], m: &[u8]) -> bool
    requires { (length bytes.now ≡ record_size) × ((record_of bytes.now).count ≤ most_open) }
    ensures { result ≡ copy_fits tree (record_of bytes.now) m.now }
{
    let contacted = octets::get_u16(bytes, CONTACTED);
    if !is_answer(bytes, OPEN, contacted, m) {
        return false;
    }
    let e = wire::nth_entry(m, 0);
    let x = object_named(bytes, e.object);
    let ready = coordinator::is_ready(x);
    let wanted = both(e.mode == x.mode, !ready);
    both(place(bytes, e.object) < MOST_OPEN, wanted)
}

// What a copy brought about.
fn ready_or_not(ready: bool) -> u64
    ensures { result ≡ cond ready 3 0 }
{
    if ready { READY as u64 } else { NOTHING as u64 }
}

// A copy of an open object counts until the object is ready.
fn take_copy(bytes: &mut [u8], m: &[u8]) -> u64
    requires { check bytes.old ≡ 0 }
    ensures value { called 0 result ≡ told_by (copy_taken tree (record_of bytes.old) m.now) }
    ensures bytes_after { bytes.new ≡ kept (copy_taken tree (record_of bytes.old) m.now) bytes.old }
{
    if copy_fits(bytes, m) {
        let e = wire::nth_entry(m, 0);
        let p = place(bytes, e.object);
        let x = arrivals::copied(object_named(bytes, e.object), wire::from(m), e);
        put_object(bytes, OBJECTS_PLACE + OBJECT_SIZE * p, x);
        return ready_or_not(coordinator::is_ready(x));
    }
    NOTHING as u64
}

// The rivals that a message names, each with the highest serial.
fn raise_rivals(bytes: &mut [u8], m: &[u8])
    requires { check bytes.old ≡ 0 }
    ensures bytes_after { bytes.new ≡ bytes_of (with_rivals (record_of bytes.old) (raised_by (record_of bytes.old) m.now)) }
    ensures m_len { length (raised_by (record_of bytes.old) m.now) ≡ nodes }
{
    if wire::rivals(m) == 0 {
        return;
    }
    let rivals = arrivals::raised_by(rivals_of(bytes), m);
    put_rivals(bytes, rivals);
}

// Whether every participant voted yes.
fn is_agreed(participants: u16, agreed: u16) -> bool
    ensures { result ≡ within participants agreed }
{
    let voted = participants & agreed;
    voted == participants
}

// A yes counts with its rivals, and the last one commits.
fn take_yes(bytes: &mut [u8], m: &[u8]) -> u64
    requires { (check bytes.old ≡ 0) × ((record_of bytes.old).phase ≡ 2) }
    ensures value { called 0 result ≡ told_by (yes_taken (record_of bytes.old) m.now) }
    ensures bytes_after { bytes.new ≡ bytes_of (yes_taken (record_of bytes.old) m.now).coordinator }
{
    let participants = octets::get_u16(bytes, PARTICIPANTS);
    let agreed = mask::join(octets::get_u16(bytes, YES), mask::single(wire::from(m)));
    raise_rivals(bytes, m);
    octets::put_u16(bytes, YES, agreed);
    if is_agreed(participants, agreed) {
        turn(bytes, COMMITTED, FINISHING);
        return COMMITTED as u64;
    }
    NOTHING as u64
}

// A no aborts.
fn take_vote(bytes: &mut [u8], m: &[u8]) -> u64
    requires { check bytes.old ≡ 0 }
    ensures value { called 0 result ≡ told_by (vote_taken (record_of bytes.old) m.now) }
    ensures bytes_after { bytes.new ≡ kept (vote_taken (record_of bytes.old) m.now) bytes.old }
{
    let participants = octets::get_u16(bytes, PARTICIPANTS);
    if is_answer(bytes, VOTING, participants, m) {
        if wire::word(m) == 0 {
            end_aborted(bytes);
            return ABORTED as u64;
        }
        return take_yes(bytes, m);
    }
    NOTHING as u64
}

// A done: the last one ends the transaction.
fn take_done(bytes: &mut [u8], m: &[u8]) -> u64
    requires { check bytes.old ≡ 0 }
    ensures value { called 0 result ≡ told_by (done_taken (record_of bytes.old) m.now) }
    ensures bytes_after { bytes.new ≡ kept (done_taken (record_of bytes.old) m.now) bytes.old }
{
    let nodes = awaited_in(bytes);
    if is_answer(bytes, FINISHING, nodes, m) {
        let said = mask::join(octets::get_u16(bytes, DONE), mask::single(wire::from(m)));
        if mask::subset(nodes, said) {
            let outcome = octets::get_u8(bytes, OUTCOME);
            become_idle(bytes, outcome);
            return FINISHED as u64;
        }
        octets::put_u16(bytes, DONE, said);
        return NOTHING as u64;
    }
    NOTHING as u64
}

// A yield that names this transaction aborts it while open or voting.
fn take_yield(bytes: &mut [u8], m: &[u8]) -> u64
    requires { check bytes.old ≡ 0 }
    ensures value { called 0 result ≡ told_by (yield_taken (record_of bytes.old) m.now) }
    ensures bytes_after { bytes.new ≡ kept (yield_taken (record_of bytes.old) m.now) bytes.old }
{
    let r = wire::nth_rival(m, 0);
    let at = phase(bytes);
    let named = r.serial == octets::get_u32(bytes, SERIAL);
    if both(either(at == OPEN, at == VOTING), named) {
        end_aborted(bytes);
        return ABORTED as u64;
    }
    NOTHING as u64
}

// The kind decides.
pub(crate) fn deliver(bytes: &mut [u8], m: &[u8]) -> u64
    requires { check bytes.old ≡ 0 }
    ensures value { called 0 result ≡ told_by (delivered tree (record_of bytes.old) m.now) }
    ensures bytes_after { bytes.new ≡ kept (delivered tree (record_of bytes.old) m.now) bytes.old }
{
    match wire::kind(m) {
        wire::COPY => take_copy(bytes, m),
        wire::VOTE => take_vote(bytes, m),
        wire::DONE => take_done(bytes, m),
        wire::YIELD => take_yield(bytes, m),
        _ => NOTHING as u64,
    }
}
