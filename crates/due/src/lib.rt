// What is due to a node, as a message in a lent buffer, from a record by value. A call from C works on the record's bytes instead, in `record_due`, which
// takes an object's entry from here.
#![tactic(auto)]

ghost use Rattle.std.specs.Prelude.{◌≡◌, ℕ, ◌<◌, length, get_or, replicate};
ghost use Rattle.numbers.specs.Sizes.{objects as objectsEnd, most_open};
ghost use Rattle.wire.specs.Items.{no_entry};
ghost use Rattle.letters.specs.Write.{written_of, buffer_after};
ghost use Rattle.coordinator.specs.System.{tree};
ghost use Rattle.coordinator.specs.State.{place_in};
ghost use Rattle.due.specs.Gather.{Lists};
ghost use Rattle.due.specs.Due.{entry_for, entries_of, ask_to, outcome_to, message_due, due_written, due_buffer};

mod duties;

use coordinator::{COMMITTED, Coordinator, Object};
pub use duties::{due, rival_of};
use letters::Written;
use numbers::{MOST_OPEN, OBJECTS, both};
use wire::Entry;

// What is due to a node: the call's number, and the kind of message, 0 where nothing is due.
#[derive(Clone, Copy)]
pub struct Duty {
    pub number: u8,
    pub kind: u8,
}

// The first `count` of eight entries.
#[derive(Clone, Copy)]
pub struct Gathered {
    pub entries: [Entry; MOST_OPEN],
    pub count: usize,
}

// The entry of an opened object: a read's value is 0, a write's is the new one. Ruled out: the value found; the version after it.
pub fn entry_for(x: Object) -> Entry
    ensures { result ≡ entry_for x }
{
    let value = if x.mode == 0 { 0 } else { x.new };
    Entry {
        object: x.object,
        mode: x.mode,
        version: x.version,
        value,
    }
}

// Room for eight entries. Ruled out: an object other than 0; seven entries.
pub fn no_entries() -> [Entry; MOST_OPEN]
    ensures { result ≡ replicate most_open no_entry }
{
    let e = Entry {
        object: 0,
        mode: 0,
        version: 0,
        value: 0,
    };
    [e; MOST_OPEN]
}

// Where each object stands among the open ones, 8 where it is not open. The loop goes down over the places, so that the first of two counts.
fn places_of(objects: [Object; MOST_OPEN], count: usize) -> [u8; OBJECTS]
    ensures result_len { length result ≡ objectsEnd }
    ensures by_index { (n : ℕ) → n < objectsEnd → get_or result n 0 ≡ place_in objects count n }
{
    let mut places = [8u8; OBJECTS];
    for i in (0..MOST_OPEN).rev() {
        let at = usize::from(objects[i].object);
        if i < count && at < OBJECTS {
            places[at] = i as u8;
        }
    }
    places
}

// The entries of an ask or a commit, ascending by object.
fn entries_of(c: Coordinator) -> Gathered
    ensures { Lists result (entries_of c) }
{
    let objects = c.objects;
    let places = places_of(objects, c.count);
    let mut entries = no_entries();
    let mut count: usize = 0;
    for place in &places {
        let p = usize::from(*place);
        if p < MOST_OPEN && count < MOST_OPEN {
            entries[count] = entry_for(objects[p]);
            count += 1;
        }
    }
    Gathered { entries, count }
}

// An ask to a node.
fn send_ask(c: Coordinator, me: u8, node: u8, out: &mut [u8]) -> Written
    ensures value { result ≡ written_of (length out.old) (ask_to c me node) }
    ensures out_after { out.new ≡ buffer_after (ask_to c me node) out.old }
{
    let g = entries_of(c);
    let entries = g.entries;
    letters::write_ask(out, node, me, c.serial, c.timestamp, entries, g.count)
}

// The outcome to a node: a commit with the entries of the ask, an abort with none.
fn send_outcome(c: Coordinator, me: u8, node: u8, out: &mut [u8]) -> Written
    ensures value { result ≡ written_of (length out.old) (outcome_to c me node) }
    ensures out_after { out.new ≡ buffer_after (outcome_to c me node) out.old }
{
    if c.outcome == COMMITTED {
        let g = entries_of(c);
        let entries = g.entries;
        letters::write_outcome(out, node, me, c.serial, c.timestamp, entries, g.count, 1)
    } else {
        let entries = no_entries();
        letters::write_outcome(out, node, me, c.serial, c.timestamp, entries, 0, 0)
    }
}

// The message of a kind.
fn send(c: Coordinator, me: u8, node: u8, object: u8, kind: u8, out: &mut [u8]) -> Written
    ensures value { result ≡ written_of (length out.old) (message_due c me node object kind) }
    ensures out_after { out.new ≡ buffer_after (message_due c me node object kind) out.old }
{
    match kind {
        wire::FETCH => {
            let x = coordinator::at_place(c, object);
            letters::write_fetch(out, node, me, c.serial, c.timestamp, object, x.mode)
        }
        wire::ASK => send_ask(c, me, node, out),
        wire::OUTCOME => send_outcome(c, me, node, out),
        _ => {
            let rivals = c.rivals;
            letters::write_yield(out, me, c.serial, c.timestamp, node, rival_of(rivals, node))
        }
    }
}

// Writes what is due to a node, and while open for an object. Nothing due: number 0, nothing written.
// Ruled out: an abort with the entries of the ask; a buffer altered where nothing is due; entries in the order of opening.
pub fn write(c: Coordinator, me: u8, node: u8, object: u8, out: &mut [u8]) -> Written
    ensures value { result ≡ due_written tree (length out.old) c me node object }
    ensures out_after { out.new ≡ due_buffer tree c me node object out.old }
{
    if out.len() < numbers::LONGEST_MESSAGE {
        return Written {
            number: numbers::LENGTH,
            length: 0,
        };
    }
    let d = due(c, me, node, object);
    if both(d.number == 0, 0 < d.kind) {
        send(c, me, node, object, d.kind, out)
    } else {
        Written {
            number: d.number,
            length: 0,
        }
    }
}
