// What is due to a node. It changes no record.
ghost use Rattle.std.specs.Prelude.{◌≡◌, get_or};
ghost use Rattle.numbers.specs.Refusal.{first_of};
ghost use Rattle.coordinator.specs.System.{tree};
ghost use Rattle.due.specs.Kind.{open_due, voting_due, finishing_due, due_kind, due_refusals, due_of};

use crate::Duty;
use coordinator::{
    COMMITTED, Coordinator, FINISHING, OPEN, VOTING, at_place, awaited_by, is_ready, place,
};
use numbers::{MOST_OPEN, NODES, NODES_END, OBJECTS_END, both, either, pick, refuse};

// No kind: nothing is due.
const NO_KIND: u8 = 0;

// A fetch to each node of the present quorum while the object is not ready.
fn open_due(c: Coordinator, node: u8, object: u8) -> u8
    ensures { result ≡ open_due tree c node object }
{
    let x = at_place(c, object);
    pick(
        both(mask::has(c.quorum, node), !is_ready(x)),
        wire::FETCH,
        NO_KIND,
    )
}

// An ask to each participant without a vote.
fn voting_due(c: Coordinator, node: u8) -> u8
    ensures { result ≡ voting_due c node }
{
    pick(
        both(mask::has(c.participants, node), !mask::has(c.yes, node)),
        wire::ASK,
        NO_KIND,
    )
}

// The serial named for an owner; 0 for one that there is not. Ruled out: the serial of the next owner; the last one's for an owner above 12.
pub fn rival_of(rivals: [u32; NODES], node: u8) -> u32
    ensures { result ≡ get_or rivals node 0 }
{
    let i = usize::from(node);
    if i < NODES { rivals[i] } else { 0 }
}

// An outcome to each awaited node without a done, then after a commit a yield to each rival's owner.
fn finishing_due(c: Coordinator, node: u8) -> u8
    ensures { result ≡ finishing_due c node }
{
    let rivals = c.rivals;
    let named = rival_of(rivals, node);
    let owed = pick(
        both(c.outcome == COMMITTED, named != 0),
        wire::YIELD,
        NO_KIND,
    );
    pick(
        both(mask::has(awaited_by(c), node), !mask::has(c.done, node)),
        wire::OUTCOME,
        owed,
    )
}

// The kind that is due, by the phase.
fn due_kind(c: Coordinator, node: u8, object: u8) -> u8
    ensures { result ≡ due_kind tree c node object }
{
    let finishing = pick(c.phase == FINISHING, finishing_due(c, node), NO_KIND);
    let voting = pick(c.phase == VOTING, voting_due(c, node), finishing);
    pick(c.phase == OPEN, open_due(c, node, object), voting)
}

// The number of a due.
fn due_number(c: Coordinator, me: u8, node: u8, object: u8) -> u8
    ensures { result ≡ first_of (due_refusals c me node object) }
{
    let absent = either(!(object < OBJECTS_END), !(place(c, object) < MOST_OPEN));
    let none = refuse(numbers::NO_SUCH_OBJECT, both(c.phase == OPEN, absent), 0);
    refuse(
        numbers::STRANGER,
        either(!(me < NODES_END), !(node < NODES_END)),
        none,
    )
}

// Which kind of message is due to a node, while open for an object; 0 where nothing is due.
// Ruled out: a yield before the outcome that the same node waits for; an ask to a participant that voted yes.
pub fn due(c: Coordinator, me: u8, node: u8, object: u8) -> Duty
    ensures { result ≡ due_of tree c me node object }
{
    let number = due_number(c, me, node, object);
    let kind = pick(number == 0, due_kind(c, node, object), NO_KIND);
    Duty { number, kind }
}
