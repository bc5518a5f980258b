// A node's own transaction (document 01: the booking record), changed in place: the host's calls and a delivery on a record that is lent. Each is
// the coordinator's step by value, with the record before it taken out and the record after it put back. A call that is refused
// leaves the record as before. Document 01 asks for the step in this form; a call from C works on the record's bytes instead, in `record_calls` and
// `record_arrive`.
#![tactic(auto)]

ghost use Rattle.coordinator.specs.System.{tree};
ghost use Rattle.coordinator.specs.Calls.{begin_of, open_of, set_of, reselect_of, request_commit_of, abort_of};
ghost use Rattle.arrivals.specs.Receive.{receive_of};
ghost use Rattle.booking.specs.Called.{Does};

use coordinator::{BeginWith, Coordinator};
use numbers::{NODES, Refusal};

// Begins a transaction; answers the chosen read quorum.
// Ruled out: a serial that does not rise; a refused begin that leaves another record.
pub fn begin(c: &mut Coordinator, me: u8, w: BeginWith) -> Result<u64, Refusal>
    ensures { Does (begin_of tree c.old me w) result c.new }
{
    let taken = coordinator::begin(*c, me, w)?;
    *c = taken.coordinator;
    Ok(taken.answer)
}

// Opens an object, to read it or to write it.
// Ruled out: an open that does not contact the present read quorum; a second open of the same object.
pub fn open_read(c: &mut Coordinator, me: u8, object: u8) -> Result<u64, Refusal>
    ensures { Does (open_of c.old me object 0) result c.new }
{
    let taken = coordinator::open_read(*c, me, object)?;
    *c = taken.coordinator;
    Ok(taken.answer)
}

// Ruled out: it is opened to be read; a ninth object taken.
pub fn open_write(c: &mut Coordinator, me: u8, object: u8) -> Result<u64, Refusal>
    ensures { Does (open_of c.old me object 1) result c.new }
{
    let taken = coordinator::open_write(*c, me, object)?;
    *c = taken.coordinator;
    Ok(taken.answer)
}

// Gives a written object its new value; the last one counts.
// Ruled out: the first of two values kept; a value set on a read.
pub fn set_value(c: &mut Coordinator, me: u8, object: u8, value: u64) -> Result<u64, Refusal>
    ensures { Does (set_of c.old me object value) result c.new }
{
    let taken = coordinator::set_value(*c, me, object, value)?;
    *c = taken.coordinator;
    Ok(taken.answer)
}

// Takes a fresh live mask and distances (document 01: look again); answers the chosen read quorum.
// Ruled out: a new quorum that is not contacted though an object is open; the old quorum forgotten where there is no new one.
pub fn reselect(
    c: &mut Coordinator,
    me: u8,
    live: u16,
    distances: [u16; NODES],
) -> Result<u64, Refusal>
    ensures { Does (reselect_of tree c.old me live distances) result c.new }
{
    let taken = coordinator::reselect(*c, me, live, distances)?;
    *c = taken.coordinator;
    Ok(taken.answer)
}

// Asks for votes; answers the participants.
// Ruled out: participants without the contacted nodes; 'no quorum' where an object is not ready.
pub fn request_commit(c: &mut Coordinator, me: u8) -> Result<u64, Refusal>
    ensures { Does (request_commit_of tree c.old me) result c.new }
{
    let taken = coordinator::request_commit(*c, me)?;
    *c = taken.coordinator;
    Ok(taken.answer)
}

// Gives the transaction up while it is open or voting.
// Ruled out: an abort of a finishing transaction; idle at once although a node was contacted.
pub fn abort(c: &mut Coordinator, me: u8) -> Result<u64, Refusal>
    ensures { Does (abort_of c.old me) result c.new }
{
    let taken = coordinator::abort(*c, me)?;
    *c = taken.coordinator;
    Ok(taken.answer)
}

// Delivers one message; answers what it brought about.
// Ruled out: a delivery that leaves the record as it was; a record changed by a message that is refused.
pub fn receive(c: &mut Coordinator, me: u8, m: &[u8]) -> Result<u64, Refusal>
    ensures { Does (receive_of tree c.old me m.now) result c.new }
{
    let taken = arrivals::receive(*c, me, m)?;
    *c = taken.coordinator;
    Ok(taken.answer)
}
