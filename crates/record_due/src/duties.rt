// What is due to a node, found on the bytes of a record and written as a message.
ghost use Rattle.std.specs.Prelude.{◌≡◌, false, true, not, ◌&&◌, ◌||◌, ℕ, ◌≤◌, ◌<◌, eqb, ltb, length, get_or, MatchOption};
ghost use Rattle.record.specs.Layout.{record_size};
ghost use Rattle.numbers.specs.Sizes.{objects, most_open, longest_message};
ghost use Rattle.letters.specs.Write.{written_of, buffer_after};
ghost use Rattle.coordinator.specs.System.{tree};
ghost use Rattle.coordinator.specs.State.{is_open};
ghost use Rattle.due.specs.Kind.{open_due, voting_due, finishing_due, due_kind, due_of};
ghost use Rattle.due.specs.Gather.{Lists};
ghost use Rattle.due.specs.Due.{entries_of, ask_to, outcome_to, message_due, due_written, due_buffer};
ghost use Rattle.record.specs.Record.{record_of, check};

use coordinator::{COMMITTED, FINISHING, OPEN, VOTING};
use due::{Duty, Gathered};
use letters::Written;
use numbers::{MOST_OPEN, NODES, NODES_END, OBJECTS_END, both, either, pick, refuse};
use record::load::wide;
use record::look::{awaited_in, count, object_at, object_named, phase, place};
use record::{
    DONE, OBJECT_SIZE, OBJECTS_PLACE, OUTCOME, PARTICIPANTS, QUORUM, RIVAL_SIZE, RIVALS, SERIAL,
    TIMESTAMP, YES,
};

// No kind: nothing is due.
const NO_KIND: u8 = 0;

// The serial named for an owner; 0 for one that there is not.
fn rival_in(bytes: &[u8], node: u8) -> u32
    ensures { result ≡ get_or (record_of bytes.now).rivals node 0 }
{
    let i = wide(node);
    if i < NODES {
        octets::get_u32(bytes, RIVALS + RIVAL_SIZE * i)
    } else {
        0
    }
}

// A fetch to each node of the present quorum while the object is not ready.
fn open_due(bytes: &[u8], node: u8, object: u8) -> u8
    requires { (length bytes.now ≡ record_size) × ((record_of bytes.now).count ≤ most_open) }
    ensures { result ≡ open_due tree (record_of bytes.now) node object }
{
    let x = object_named(bytes, object);
    let quorum = octets::get_u16(bytes, QUORUM);
    pick(
        both(mask::has(quorum, node), !coordinator::is_ready(x)),
        wire::FETCH,
        NO_KIND,
    )
}

// An ask to each participant without a vote.
fn voting_due(bytes: &[u8], node: u8) -> u8
    ensures { result ≡ voting_due (record_of bytes.now) node }
{
    let participants = octets::get_u16(bytes, PARTICIPANTS);
    let yes = octets::get_u16(bytes, YES);
    pick(
        both(mask::has(participants, node), !mask::has(yes, node)),
        wire::ASK,
        NO_KIND,
    )
}

// An outcome to each awaited node without a done, then after a commit a yield to each rival's owner.
fn finishing_due(bytes: &[u8], node: u8) -> u8
    ensures { result ≡ finishing_due (record_of bytes.now) node }
{
    let named = rival_in(bytes, node);
    let committed = octets::get_u8(bytes, OUTCOME) == COMMITTED;
    let owed = pick(both(committed, named != 0), wire::YIELD, NO_KIND);
    let done = octets::get_u16(bytes, DONE);
    pick(
        both(mask::has(awaited_in(bytes), node), !mask::has(done, node)),
        wire::OUTCOME,
        owed,
    )
}

// The kind that is due, by the phase.
fn due_kind(bytes: &[u8], node: u8, object: u8) -> u8
    requires { (length bytes.now ≡ record_size) × ((record_of bytes.now).count ≤ most_open) }
    ensures { result ≡ due_kind tree (record_of bytes.now) node object }
{
    match phase(bytes) {
        OPEN => open_due(bytes, node, object),
        VOTING => voting_due(bytes, node),
        FINISHING => finishing_due(bytes, node),
        _ => NO_KIND,
    }
}

// While open, what is due needs an object that is open.
fn is_absent(bytes: &[u8], object: u8) -> bool
    requires { (length bytes.now ≡ record_size) × ((record_of bytes.now).count ≤ most_open) }
    ensures { result ≡ (eqb (record_of bytes.now).phase 1
        && (not (ltb object objects) || not (is_open (record_of bytes.now) object))) }
{
    if phase(bytes) != OPEN {
        return false;
    }
    either(!(object < OBJECTS_END), !(place(bytes, object) < MOST_OPEN))
}

// What is due: its number, and where that is 0 its kind.
fn due_in(bytes: &[u8], me: u8, node: u8, object: u8) -> Duty
    requires { (length bytes.now ≡ record_size) × ((record_of bytes.now).count ≤ most_open) }
    ensures { result ≡ due_of tree (record_of bytes.now) me node object }
{
    let none = refuse(numbers::NO_SUCH_OBJECT, is_absent(bytes, object), 0);
    let number = refuse(
        numbers::STRANGER,
        either(!(me < NODES_END), !(node < NODES_END)),
        none,
    );
    if number != 0 {
        return Duty {
            number,
            kind: NO_KIND,
        };
    }
    Duty {
        number,
        kind: due_kind(bytes, node, object),
    }
}

// The least number of an open object from `lo` on, if there is one.
fn next_open(bytes: &[u8], lo: u8) -> Option<u8>
    requires bytes_value { check bytes.now ≡ 0 }
    requires lo_le_objects { lo ≤ objects }
    ensures { MatchOption result
        ((n : ℕ) → lo ≤ n → n < objects → is_open (record_of bytes.now) n ≡ false)
        (λ m. (lo ≤ m) × ((m < objects) × (((n : ℕ) → lo ≤ n → n < m → is_open (record_of bytes.now) n ≡ false) × (is_open (record_of bytes.now) m ≡ true)))) }
{
    let n = count(bytes);
    let mut m = OBJECTS_END;
    for i in 0..n {
        let x = bytes[OBJECTS_PLACE + OBJECT_SIZE * i];
        if lo <= x && x < m {
            m = x;
        }
    }
    if m < OBJECTS_END { Some(m) } else { None }
}

// The entries of an ask or a commit, ascending by object: the next open object again and again.
fn entries_in(bytes: &[u8]) -> Gathered
    requires { check bytes.now ≡ 0 }
    ensures { Lists result (entries_of (record_of bytes.now)) }
{
    let n = count(bytes);
    let mut entries = due::no_entries();
    let mut lo: u8 = 0;
    for k in 0..n {
        let Some(m) = next_open(bytes, lo) else {
            return Gathered { entries, count: k };
        };
        let p = place(bytes, m);
        entries[k] = due::entry_for(object_at(bytes, p));
        lo = m + 1;
    }
    Gathered { entries, count: n }
}

// An ask to a node.
fn send_ask(bytes: &[u8], me: u8, node: u8, out: &mut [u8]) -> Written
    requires { check bytes.now ≡ 0 }
    ensures value { result ≡ written_of (length out.old) (ask_to (record_of bytes.now) me node) }
    ensures out_after { out.new ≡ buffer_after (ask_to (record_of bytes.now) me node) out.old }
{
    let g = entries_in(bytes);
    let entries = g.entries;
    let serial = octets::get_u32(bytes, SERIAL);
    let stamp = octets::get_u32(bytes, TIMESTAMP);
    letters::write_ask(out, node, me, serial, stamp, entries, g.count)
}

// The outcome to a node: a commit with the entries of the ask, an abort with none.
fn send_outcome(bytes: &[u8], me: u8, node: u8, out: &mut [u8]) -> Written
    requires { check bytes.now ≡ 0 }
    ensures value { result ≡ written_of (length out.old) (outcome_to (record_of bytes.now) me node) }
    ensures out_after { out.new ≡ buffer_after (outcome_to (record_of bytes.now) me node) out.old }
{
    let serial = octets::get_u32(bytes, SERIAL);
    let stamp = octets::get_u32(bytes, TIMESTAMP);
    if octets::get_u8(bytes, OUTCOME) == COMMITTED {
        let g = entries_in(bytes);
        let entries = g.entries;
        letters::write_outcome(out, node, me, serial, stamp, entries, g.count, 1)
    } else {
        let entries = due::no_entries();
        letters::write_outcome(out, node, me, serial, stamp, entries, 0, 0)
    }
}

// The message of a kind.
fn send(bytes: &[u8], me: u8, node: u8, object: u8, kind: u8, out: &mut [u8]) -> Written
    requires { check bytes.now ≡ 0 }
    ensures value { result ≡ written_of (length out.old) (message_due (record_of bytes.now) me node object kind) }
    ensures out_after { out.new ≡ buffer_after (message_due (record_of bytes.now) me node object kind) out.old }
{
    let serial = octets::get_u32(bytes, SERIAL);
    let stamp = octets::get_u32(bytes, TIMESTAMP);
    match kind {
        wire::FETCH => {
            let x = object_named(bytes, object);
            letters::write_fetch(out, node, me, serial, stamp, object, x.mode)
        }
        wire::ASK => send_ask(bytes, me, node, out),
        wire::OUTCOME => send_outcome(bytes, me, node, out),
        _ => letters::write_yield(out, me, serial, stamp, node, rival_in(bytes, node)),
    }
}

// Writes what is due to a node, and while open for an object. Nothing due: number 0, nothing written.
pub(crate) fn write(bytes: &[u8], me: u8, node: u8, object: u8, out: &mut [u8]) -> Written
    requires bytes_value { check bytes.now ≡ 0 }
    requires longest_message_in_bounds { longest_message ≤ length out.old }
    ensures value { result ≡ due_written tree (length out.old) (record_of bytes.now) me node object }
    ensures out_after { out.new ≡ due_buffer tree (record_of bytes.now) me node object out.old }
{
    let d = due_in(bytes, me, node, object);
    if both(d.number == 0, 0 < d.kind) {
        send(bytes, me, node, object, d.kind, out)
    } else {
        Written {
            number: d.number,
            length: 0,
        }
    }
}
