// Which bytes are a record: each clause is tested where its fields stand, and nothing is copied.
ghost use Rattle.std.specs.Prelude.{◌≡◌, cond, ◌≤◌, ◌<◌, length};
ghost use Rattle.record.specs.Layout.{record_size};
ghost use Rattle.numbers.specs.Sizes.{most_open};
ghost use Rattle.numbers.specs.Outcome.{number_of};
ghost use Rattle.coordinator.specs.System.{tree};
ghost use Rattle.coordinator.specs.State.{settled};
ghost use Rattle.clauses.specs.Clauses.{implies, zeros, numbers_meet, no_nodes, nodes_meet, agreed, votes_meet, dones_meet};
ghost use Rattle.record.specs.Record.{object_of, record_of, check};
ghost use Rattle.record.specs.Valid.{present_ok, found_in, opened_in, last_written, votable, stands_before, place_ok, places_ok};
ghost use Rattle.record.specs.Valid.{objects_ok, party_is, party_ok, valid_of};

use crate::load::wide;
use crate::look::awaited_in;
use crate::{
    CAME_IN, CONTACTED, COUNT, DISTANCES, DONE, GIVEN_IN, LIVE, MODE_IN, NEW_IN, OBJECT_SIZE,
    OBJECTS_PLACE, OUTCOME, PARTICIPANTS, PHASE, QUORUM, RIVALS, SERIAL, SIZE, TIMESTAMP, VALUE_IN,
    VERSION_IN, YES,
};
use coordinator::{ABORTED, COMMITTED, FINISHING, IDLE, OPEN, VOTING};
use mask::subset;
use numbers::{EVERY_NODE, HIGHEST, MOST_OPEN, OBJECTS_END, Refusal, both, either};
use quorum::Kind;

// One test or another.
fn choose(first: bool, a: bool, b: bool) -> bool
    ensures { result ≡ cond first a b }
{
    if first { a } else { b }
}

// b wherever a holds.
fn implied(a: bool, b: bool) -> bool
    ensures { result ≡ implies a b }
{
    either(!a, b)
}

// Every byte is 0: the bytes are joined and looked at once, which a compiler does for many bytes at a time.
fn are_zero(bytes: &[u8]) -> bool
    ensures { result ≡ zeros bytes.now }
{
    let mut ok = true;
    for x in bytes {
        ok &= *x == 0;
    }
    ok
}

// The phase, the outcome, the serial and the timestamp.
fn numbers_meet(bytes: &[u8]) -> bool
    ensures { result ≡ numbers_meet (record_of bytes.now) }
{
    let timestamp = octets::get_u32(bytes, TIMESTAMP);
    let outcome = octets::get_u8(bytes, OUTCOME);
    let phase = octets::get_u8(bytes, PHASE);
    if FINISHING < phase {
        return false;
    }
    if ABORTED < outcome {
        return false;
    }
    if octets::get_u32(bytes, SERIAL) == 0 {
        both(timestamp == 0, both(phase == IDLE, outcome == 0))
    } else {
        !(timestamp == 0)
    }
}

// No live node, no quorum, no distance, no object.
fn no_nodes(bytes: &[u8]) -> bool
    requires { length bytes.now ≡ record_size }
    ensures { result ≡ no_nodes (record_of bytes.now) }
{
    let none = both(
        are_zero(&bytes[DISTANCES..QUORUM]),
        octets::get_u8(bytes, COUNT) == 0,
    );
    both(
        octets::get_u16(bytes, LIVE) == 0,
        both(octets::get_u16(bytes, QUORUM) == 0, none),
    )
}

// While idle there are none, else a present read quorum.
fn are_present(bytes: &[u8]) -> bool
    requires { length bytes.now ≡ record_size }
    ensures { result ≡ present_ok (record_of bytes.now) }
{
    if octets::get_u8(bytes, PHASE) == IDLE {
        no_nodes(bytes)
    } else {
        quorum::is_quorum(Kind::Read, octets::get_u16(bytes, QUORUM))
    }
}

// The live nodes, the present read quorum, the contacted nodes.
fn nodes_meet(bytes: &[u8]) -> bool
    requires { length bytes.now ≡ record_size }
    ensures { result ≡ nodes_meet tree (record_of bytes.now) }
{
    let quorum = octets::get_u16(bytes, QUORUM);
    let contacted = octets::get_u16(bytes, CONTACTED);
    let small = both(quorum <= EVERY_NODE, contacted <= EVERY_NODE);
    if !both(octets::get_u16(bytes, LIVE) <= EVERY_NODE, small) {
        return false;
    }
    if !are_present(bytes) {
        return false;
    }
    if octets::get_u8(bytes, COUNT) == 0 {
        contacted == 0
    } else {
        subset(quorum, contacted)
    }
}

// Nothing is found of an object while no copy of it came.
fn is_found(x: &[u8]) -> bool
    ensures { result ≡ found_in x.now 0 }
{
    if octets::get_u16(x, CAME_IN) == 0 {
        both(
            octets::get_u32(x, VERSION_IN) == 0,
            octets::get_u64(x, VALUE_IN) == 0,
        )
    } else {
        true
    }
}

// An opened object, from its bytes.
fn is_opened(x: &[u8], contacted: u16) -> bool
    ensures { result ≡ opened_in contacted x.now 0 }
{
    let mode = octets::get_u8(x, MODE_IN);
    let given = octets::get_u8(x, GIVEN_IN);
    let known = both(octets::get_u8(x, 0) < OBJECTS_END, mode < 2);
    if !both(given <= 1, known) {
        return false;
    }
    if !subset(octets::get_u16(x, CAME_IN), contacted) {
        return false;
    }
    if !is_found(x) {
        return false;
    }
    if given == 1 {
        mode == 1
    } else {
        octets::get_u64(x, NEW_IN) == 0
    }
}

// An object that votes may be asked for: ready, and if written with its new value.
pub(crate) fn is_settled(x: &[u8]) -> bool
    ensures { result ≡ settled tree (object_of x.now 0) }
{
    let read = octets::get_u8(x, MODE_IN) == 0;
    let given = octets::get_u8(x, GIVEN_IN) == 1;
    let ready = quorum::is_quorum(Kind::Read, octets::get_u16(x, CAME_IN));
    both(ready, either(read, given))
}

// A written version that has no next one.
pub(crate) fn is_used_up(x: &[u8]) -> bool
    ensures { result ≡ last_written (object_of x.now 0) }
{
    let read = octets::get_u8(x, MODE_IN) == 0;
    both(!read, octets::get_u32(x, VERSION_IN) == HIGHEST)
}

// An object that votes may be asked for, and that has a next version if it is written.
fn is_votable(x: &[u8]) -> bool
    ensures { result ≡ votable (object_of x.now 0) }
{
    both(is_settled(x), !is_used_up(x))
}

// Whether an object stands at one of the first n places.
fn stands_before(bytes: &[u8], n: usize, object: u8) -> bool
    requires bytes_len { length bytes.now ≡ record_size }
    requires n_le_most_open { n ≤ most_open }
    ensures { result ≡ stands_before n bytes.now object }
{
    let mut found = false;
    for i in 0..n {
        found |= bytes[OBJECTS_PLACE + OBJECT_SIZE * i] == object;
    }
    found
}

// One place below the count.
fn place_meets(bytes: &[u8], i: usize) -> bool
    requires bytes_len { length bytes.now ≡ record_size }
    requires i_lt_most_open { i < most_open }
    ensures { result ≡ place_ok bytes.now i }
{
    let at = OBJECTS_PLACE + OBJECT_SIZE * i;
    let end = at + OBJECT_SIZE;
    if !is_opened(&bytes[at..end], octets::get_u16(bytes, CONTACTED)) {
        return false;
    }
    if stands_before(bytes, i, octets::get_u8(bytes, at)) {
        return false;
    }
    if octets::get_u16(bytes, PARTICIPANTS) == 0 {
        true
    } else {
        is_votable(&bytes[at..end])
    }
}

// All of them.
fn places_meet(bytes: &[u8], count: usize) -> bool
    requires bytes_len { length bytes.now ≡ record_size }
    requires count_le_most_open { count ≤ most_open }
    ensures { result ≡ places_ok count bytes.now }
{
    (0..count).all(|i| place_meets(bytes, i))
}

// The objects of a record, and no byte past them that is not 0.
fn objects_meet(bytes: &[u8]) -> bool
    requires { length bytes.now ≡ record_size }
    ensures { result ≡ objects_ok bytes.now }
{
    let count = wide(octets::get_u8(bytes, COUNT));
    if MOST_OPEN < count {
        return false;
    }
    if !places_meet(bytes, count) {
        return false;
    }
    let from = OBJECTS_PLACE + OBJECT_SIZE * count;
    are_zero(&bytes[from..PARTICIPANTS])
}

// A write quorum with every contacted node, and an object; while there are no participants no rival is named.
fn is_party(bytes: &[u8]) -> bool
    requires { length bytes.now ≡ record_size }
    ensures { result ≡ party_is (record_of bytes.now) }
{
    let participants = octets::get_u16(bytes, PARTICIPANTS);
    if participants == 0 {
        return are_zero(&bytes[RIVALS..SIZE]);
    }
    both(
        quorum::is_quorum(Kind::Write, participants),
        both(
            subset(octets::get_u16(bytes, CONTACTED), participants),
            !(octets::get_u8(bytes, COUNT) == 0),
        ),
    )
}

// The participants.
fn party_meets(bytes: &[u8]) -> bool
    requires { length bytes.now ≡ record_size }
    ensures { result ≡ party_ok (record_of bytes.now) }
{
    let participants = octets::get_u16(bytes, PARTICIPANTS);
    let phase = octets::get_u8(bytes, PHASE);
    let none = participants == 0;
    let early = implied(phase <= OPEN, none);
    let voting = implied(phase == VOTING, !none);
    both(
        participants <= EVERY_NODE,
        both(is_party(bytes), both(early, voting)),
    )
}

// Every participant has voted yes.
fn is_agreed(bytes: &[u8]) -> bool
    ensures { result ≡ agreed (record_of bytes.now) }
{
    let participants = octets::get_u16(bytes, PARTICIPANTS);
    both(
        !(participants == 0),
        subset(participants, octets::get_u16(bytes, YES)),
    )
}

// The votes.
fn votes_meet(bytes: &[u8]) -> bool
    ensures { result ≡ votes_meet (record_of bytes.now) }
{
    let phase = octets::get_u8(bytes, PHASE);
    let outcome = octets::get_u8(bytes, OUTCOME);
    if !subset(
        octets::get_u16(bytes, YES),
        octets::get_u16(bytes, PARTICIPANTS),
    ) {
        return false;
    }
    let all = is_agreed(bytes);
    if phase == VOTING {
        return !all;
    }
    if phase == FINISHING {
        choose(all, outcome == COMMITTED, outcome == ABORTED)
    } else {
        true
    }
}

// The dones.
fn dones_meet(bytes: &[u8]) -> bool
    ensures { result ≡ dones_meet (record_of bytes.now) }
{
    let done = octets::get_u16(bytes, DONE);
    if octets::get_u8(bytes, PHASE) == FINISHING {
        let nodes = awaited_in(bytes);
        both(subset(done, nodes), !subset(nodes, done))
    } else {
        done == 0
    }
}

// All the clauses, the cheap ones first.
fn is_valid(bytes: &[u8]) -> bool
    requires { length bytes.now ≡ record_size }
    ensures { result ≡ valid_of bytes.now }
{
    if !numbers_meet(bytes) {
        return false;
    }
    if !nodes_meet(bytes) {
        return false;
    }
    if !party_meets(bytes) {
        return false;
    }
    if !both(votes_meet(bytes), dones_meet(bytes)) {
        return false;
    }
    objects_meet(bytes)
}

// Whether bytes are a record: refused for another length, and where a clause is broken.
// Ruled out: 'damaged' for bytes of another length; a record in a phase above 3 taken.
#[tactic(auto, using(crate::proofs::Valid::valid_meets), unfolding(crate::specs::Record::check))]
pub fn check(bytes: &[u8]) -> Result<(), Refusal>
    ensures { number_of result ≡ check bytes.now }
{
    if bytes.len() != SIZE {
        return Err(Refusal::Length);
    }
    if !is_valid(bytes) {
        return Err(Refusal::Damaged);
    }
    Ok(())
}
