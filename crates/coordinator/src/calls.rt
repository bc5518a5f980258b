// The host's calls: each is refused by the first of its refusals that fits, or does its deed.
ghost use Rattle.std.specs.Prelude.{◌≡◌, ◌<◌, cond, eqb, set, Some, IfOk};
ghost use Rattle.numbers.specs.Sizes.{most_open, highest};
ghost use Rattle.numbers.specs.Refusal.{first_of};
ghost use Rattle.numbers.specs.Outcome.{number_of};
ghost use Rattle.coordinator.specs.Step.{step};
ghost use Rattle.coordinator.specs.System.{tree};
ghost use Rattle.mask.specs.Mask.{joined};
ghost use Rattle.coordinator.specs.State.{blank_record, awaited};
ghost use Rattle.coordinator.specs.Calls.{begin_refusals, begun, begin_of, open_refusals, opened, open_of, set_refusals, with_objects, set_of};
ghost use Rattle.coordinator.specs.Calls.{found_refusals, found_of, reselect_refusals, reselected, reselect_of, request_commit_refusals, request_commit_of};
ghost use Rattle.coordinator.specs.Calls.{abort_refusals, ended_aborted, abort_of};

use crate::common::idle_with;
use crate::objects::{all_settled, any_used_up, at_place, is_ready, place, put};
use crate::{ABORTED, BeginWith, Coordinator, FINISHING, IDLE, OPEN, Object, Taken, VOTING};
use numbers::{EVERY_NODE, HIGHEST, MOST_OPEN, NODES, NODES_END, OBJECTS_END, Refusal};
use quorum::{Kind, Quorum};

// The record of a node that never began a transaction.
// Ruled out: a record that is not idle; one whose first serial would not be 1.
pub fn blank() -> Coordinator
    ensures { result ≡ blank_record }
{
    idle_with(0, 0, 0)
}

// The read quorum that a transaction begins with, or why it may not begin.
#[tactic(auto, unfolding(crate::specs::Calls::begin_refusals))]
fn may_begin(
    c: Coordinator,
    me: u8,
    w: BeginWith,
    chosen: Option<Quorum>,
) -> Result<Quorum, Refusal>
    ensures number { number_of result ≡ first_of (begin_refusals c me w chosen) }
    ensures quorum { IfOk result (λ q. (chosen ≡ Some q) × (c.serial < highest)) }
{
    if NODES_END <= me || EVERY_NODE < w.live {
        return Err(Refusal::Stranger);
    }
    if c.phase != IDLE {
        return Err(Refusal::Busy);
    }
    if age::is_early(c.outcome == ABORTED, c.timestamp, w.timestamp) {
        return Err(Refusal::OutOfTurn);
    }
    let quorum = chosen.ok_or(Refusal::NoQuorum)?;
    if c.serial == HIGHEST {
        return Err(Refusal::UsedUp);
    }
    Ok(quorum)
}

// The record of a transaction that begins.
fn with_begun(c: Coordinator, w: BeginWith, quorum: u16) -> Coordinator
    requires { c.serial < highest }
    ensures { result ≡ begun c w quorum }
{
    let distances = w.distances;
    let idle = idle_with(c.serial + 1, w.timestamp, c.outcome);
    Coordinator {
        phase: OPEN,
        live: w.live,
        distances,
        quorum,
        ..idle
    }
}

// Begins a transaction; answers the chosen read quorum.
// Ruled out: a serial that does not rise; 'out of turn' for a begin that is not idle.
#[tactic(auto, unfolding(crate::specs::Calls::begin_of, crate::specs::State::step_of))]
pub fn begin(c: Coordinator, me: u8, w: BeginWith) -> Result<Taken, Refusal>
    ensures { step c result ≡ begin_of tree c me w }
{
    let distances = w.distances;
    let chosen = quorum::nearest(Kind::Read, me, w.live, &distances);
    let mask = may_begin(c, me, w, chosen)?.mask;
    Ok(Taken {
        answer: u64::from(mask),
        coordinator: with_begun(c, w, mask),
    })
}

// Whether an object may be opened, or why not.
#[tactic(auto, unfolding(crate::specs::Calls::open_refusals))]
fn may_open(c: Coordinator, me: u8, object: u8) -> Result<(), Refusal>
    ensures number { number_of result ≡ first_of (open_refusals c me object) }
    ensures room { IfOk result (λ _. c.count < most_open) }
{
    if NODES_END <= me {
        return Err(Refusal::Stranger);
    }
    if c.phase != OPEN {
        return Err(Refusal::OutOfTurn);
    }
    if OBJECTS_END <= object || place(c, object) < MOST_OPEN {
        return Err(Refusal::NoSuchObject);
    }
    if MOST_OPEN <= c.count {
        return Err(Refusal::EightOpen);
    }
    Ok(())
}

// The record with one object more, and the present read quorum contacted.
fn with_opened(c: Coordinator, object: u8, mode: u8) -> Coordinator
    requires { c.count < most_open }
    ensures { result ≡ opened c object mode }
{
    let x = Object {
        object,
        mode,
        came: 0,
        version: 0,
        value: 0,
        given: false,
        new: 0,
    };
    let objects = c.objects;
    let after = put(objects, c.count, x);
    let mut d = c;
    d.contacted = mask::join(c.contacted, c.quorum);
    d.count = c.count + 1;
    d.objects = after;
    d
}

// Opens an object in a mode.
#[tactic(auto, unfolding(crate::specs::Calls::open_of, crate::specs::State::step_of))]
fn open_in(c: Coordinator, me: u8, object: u8, mode: u8) -> Result<Taken, Refusal>
    ensures { step c result ≡ open_of c me object mode }
{
    may_open(c, me, object)?;
    Ok(Taken {
        answer: 0,
        coordinator: with_opened(c, object, mode),
    })
}

// Opens an object, to read it or to write it.
// Ruled out: an open that does not contact the present read quorum; a second open of the same object.
pub fn open_read(c: Coordinator, me: u8, object: u8) -> Result<Taken, Refusal>
    ensures { step c result ≡ open_of c me object 0 }
{
    open_in(c, me, object, 0)
}

// Ruled out: it is opened to be read; a ninth object taken.
pub fn open_write(c: Coordinator, me: u8, object: u8) -> Result<Taken, Refusal>
    ensures { step c result ≡ open_of c me object 1 }
{
    open_in(c, me, object, 1)
}

// Whether an object may be given a value, or why not.
#[tactic(auto, unfolding(crate::specs::Calls::set_refusals))]
fn may_set(c: Coordinator, me: u8, object: u8) -> Result<(), Refusal>
    ensures { number_of result ≡ first_of (set_refusals c me object) }
{
    if NODES_END <= me {
        return Err(Refusal::Stranger);
    }
    if c.phase != OPEN {
        return Err(Refusal::OutOfTurn);
    }
    if MOST_OPEN <= place(c, object) || at_place(c, object).mode == 0 {
        return Err(Refusal::NoSuchObject);
    }
    Ok(())
}

// The record with another object at a place; past the eighth there is none. Ruled out: the count raised; the object put at the end.
pub fn with_object(c: Coordinator, p: usize, x: Object) -> Coordinator
    ensures { result ≡ with_objects c c.contacted c.count (set c.objects p x) }
{
    let objects = c.objects;
    let after = put(objects, p, x);
    let mut d = c;
    d.objects = after;
    d
}

// Gives a written object its new value; the last one counts.
// Ruled out: the first of two values kept; a value set on a read.
#[tactic(auto, unfolding(crate::specs::Calls::set_of, crate::specs::Calls::with_new, crate::specs::State::step_of))]
pub fn set_value(c: Coordinator, me: u8, object: u8, value: u64) -> Result<Taken, Refusal>
    ensures { step c result ≡ set_of c me object value }
{
    may_set(c, me, object)?;
    let mut x = at_place(c, object);
    x.given = true;
    x.new = value;
    Ok(Taken {
        answer: 0,
        coordinator: with_object(c, place(c, object), x),
    })
}

// Whether the value found for an object may be told, or why not.
#[tactic(auto, unfolding(crate::specs::Calls::found_refusals))]
fn may_tell(c: Coordinator, me: u8, object: u8) -> Result<(), Refusal>
    ensures { number_of result ≡ first_of (found_refusals tree c me object) }
{
    if NODES_END <= me {
        return Err(Refusal::Stranger);
    }
    if c.phase == IDLE {
        return Err(Refusal::OutOfTurn);
    }
    if MOST_OPEN <= place(c, object) {
        return Err(Refusal::NoSuchObject);
    }
    if !is_ready(at_place(c, object)) {
        return Err(Refusal::NotReady);
    }
    Ok(())
}

// Answers the value found for a ready object.
// Ruled out: 'not ready' without looking; the new value instead of the one found.
#[tactic(auto, unfolding(crate::specs::Calls::found_of, crate::specs::State::step_of))]
pub fn found(c: Coordinator, me: u8, object: u8) -> Result<Taken, Refusal>
    ensures { step c result ≡ found_of tree c me object }
{
    may_tell(c, me, object)?;
    Ok(Taken {
        answer: at_place(c, object).value,
        coordinator: c,
    })
}

// The read quorum that is taken in place of the present one, or why none is.
#[tactic(auto, unfolding(crate::specs::Calls::reselect_refusals))]
fn may_reselect(
    c: Coordinator,
    me: u8,
    live: u16,
    chosen: Option<Quorum>,
) -> Result<Quorum, Refusal>
    ensures number { number_of result ≡ first_of (reselect_refusals c me live chosen) }
    ensures quorum { IfOk result (λ q. chosen ≡ Some q) }
{
    if NODES_END <= me || EVERY_NODE < live {
        return Err(Refusal::Stranger);
    }
    if c.phase != OPEN {
        return Err(Refusal::OutOfTurn);
    }
    chosen.ok_or(Refusal::NoQuorum)
}

// The contacted nodes after a reselect: the new quorum joins if some object is open already.
// Ruled out: the new quorum left out though an object is open; a node contacted before left out.
pub fn contacted_after(count: usize, contacted: u16, quorum: u16) -> u16
    ensures { result ≡ cond (eqb count 0) contacted (joined contacted quorum) }
{
    if count == 0 {
        contacted
    } else {
        mask::join(contacted, quorum)
    }
}

fn with_reselected(c: Coordinator, live: u16, distances: [u16; NODES], quorum: u16) -> Coordinator
    ensures { result ≡ reselected c live distances quorum }
{
    let mut d = c;
    d.live = live;
    d.distances = distances;
    d.quorum = quorum;
    d.contacted = contacted_after(c.count, c.contacted, quorum);
    d
}

// Takes a fresh live mask and distances (document 01: look again); answers the chosen read quorum.
// Ruled out: a new quorum that is not contacted though an object is open; the old quorum forgotten where there is no new one.
#[tactic(auto, unfolding(crate::specs::Calls::reselect_of, crate::specs::State::step_of))]
pub fn reselect(
    c: Coordinator,
    me: u8,
    live: u16,
    distances: [u16; NODES],
) -> Result<Taken, Refusal>
    ensures { step c result ≡ reselect_of tree c me live distances }
{
    let chosen = quorum::nearest(Kind::Read, me, live, &distances);
    let mask = may_reselect(c, me, live, chosen)?.mask;
    Ok(Taken {
        answer: u64::from(mask),
        coordinator: with_reselected(c, live, distances, mask),
    })
}

// The write quorum that is asked for votes, or why none is.
#[tactic(auto, unfolding(crate::specs::Calls::request_commit_refusals))]
fn may_request(c: Coordinator, me: u8, chosen: Option<Quorum>) -> Result<Quorum, Refusal>
    ensures number { number_of result ≡ first_of (request_commit_refusals tree c me chosen) }
    ensures quorum { IfOk result (λ q. chosen ≡ Some q) }
{
    if NODES_END <= me {
        return Err(Refusal::Stranger);
    }
    if c.phase != OPEN {
        return Err(Refusal::OutOfTurn);
    }
    let objects = c.objects;
    if c.count == 0 || !all_settled(objects, c.count) {
        return Err(Refusal::NotReady);
    }
    let quorum = chosen.ok_or(Refusal::NoQuorum)?;
    if any_used_up(objects, c.count) {
        return Err(Refusal::UsedUp);
    }
    Ok(quorum)
}

// Asks for votes; answers the participants, who are the chosen write quorum and the contacted nodes.
// Ruled out: participants without the contacted nodes; 'no quorum' where an object is not ready.
#[tactic(auto, unfolding(crate::specs::Calls::request_commit_of, crate::specs::Calls::requested, crate::specs::State::step_of))]
pub fn request_commit(c: Coordinator, me: u8) -> Result<Taken, Refusal>
    ensures { step c result ≡ request_commit_of tree c me }
{
    let distances = c.distances;
    let chosen = quorum::nearest(Kind::Write, me, c.live, &distances);
    let quorum = may_request(c, me, chosen)?;
    let participants = mask::join(quorum.mask, c.contacted);
    let mut d = c;
    d.phase = VOTING;
    d.participants = participants;
    Ok(Taken {
        answer: u64::from(participants),
        coordinator: d,
    })
}

// Who must say done: the participants, when never voted the contacted nodes.
// Ruled out: the contacted nodes alone once votes were asked for; the present read quorum.
pub fn awaited_by(c: Coordinator) -> u16
    ensures { result ≡ awaited c }
{
    if c.participants == 0 {
        c.contacted
    } else {
        c.participants
    }
}

// Whether the transaction may be given up, or why not.
#[tactic(auto, unfolding(crate::specs::Calls::abort_refusals))]
fn may_abort(c: Coordinator, me: u8) -> Result<(), Refusal>
    ensures { number_of result ≡ first_of (abort_refusals c me) }
{
    if NODES_END <= me {
        return Err(Refusal::Stranger);
    }
    if c.phase != OPEN && c.phase != VOTING {
        return Err(Refusal::OutOfTurn);
    }
    Ok(())
}

// The record of a transaction that ends aborted.
// Ruled out: idle while a contacted node is awaited; finishing for ever with nobody awaited.
pub fn with_aborted(c: Coordinator) -> Coordinator
    ensures { result ≡ ended_aborted c }
{
    if awaited_by(c) == 0 {
        return idle_with(c.serial, c.timestamp, ABORTED);
    }
    let mut d = c;
    d.phase = FINISHING;
    d.outcome = ABORTED;
    d
}

// Gives the transaction up while it is open or voting.
// Ruled out: an abort of a finishing transaction; idle at once although a node was contacted.
#[tactic(auto, unfolding(crate::specs::Calls::abort_of, crate::specs::State::step_of))]
pub fn abort(c: Coordinator, me: u8) -> Result<Taken, Refusal>
    ensures { step c result ≡ abort_of c me }
{
    may_abort(c, me)?;
    Ok(Taken {
        answer: 0,
        coordinator: with_aborted(c),
    })
}
