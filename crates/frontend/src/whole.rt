// A call of the host, whichever it is, with the list that is lent beside it: at a node, at a node that is off, and at what is no node.
ghost use Rattle.std.specs.Prelude.{◌≡◌, cond};
ghost use Rattle.numbers.specs.Outcome.{code_of, number_of};
ghost use Rattle.coordinator.specs.System.{tree};
ghost use Rattle.coordinator.specs.Calls.{begin_of};
ghost use Rattle.record.specs.Record.{record_of, check};
ghost use Rattle.frontend.specs.Plan.{out_of_turn_after, list_number, nowhere, front_told, front_record, front_settings, off_told};
ghost use Rattle.frontend.specs.Asked.{call_by, call_of};

use crate::calls::{
    batch, begin, check_lent, late, load_classes, not_yours, open_read, open_write, request_commit,
    set_value,
};
use crate::{Act, Ask};
use coordinator::BeginWith;
use hours::LAST_MINUTE;
use numbers::{Refusal, either, first_refusal};
use record::Called;

// Whether the list that a call is lent has the length that its counts say. Ruled out: 1 for a begin; a batch judged as a table.
pub fn check_list(act: Act, list: &[u8]) -> Result<(), Refusal>
    ensures { (a : Ask) → number_of result ≡ list_number (call_by act a list.now) }
{
    match act {
        Act::Batch => classes::check_batch(list),
        Act::LoadClasses => classes::check_length(list),
        _ => Ok(()),
    }
}

// A call at a node. Ruled out: another call than the one asked; settings altered by an open.
pub fn front(bytes: &mut [u8], settings: &mut [u8], me: u8, a: Ask, list: &[u8]) -> Called
    ensures value { result ≡ front_told bytes.old settings.old me (call_of a list.now) }
    ensures bytes_after { bytes.new ≡ front_record bytes.old settings.old me (call_of a list.now) }
    ensures settings_after { settings.new ≡ front_settings bytes.old settings.old me (call_of a list.now) }
{
    let act = a.act;
    let with = a.with;
    match act {
        Act::Begin => begin(bytes, settings, me, with, a.day, a.minute),
        Act::Batch => batch(bytes, settings, me, with, a.day, a.minute, list),
        Act::OpenRead => open_read(bytes, settings, me, a.object),
        Act::OpenWrite => open_write(bytes, settings, me, a.object),
        Act::SetValue => set_value(bytes, settings, me, a.object, a.value),
        Act::RequestCommit => request_commit(bytes, settings, me),
        Act::LoadClasses => load_classes(bytes, settings, me, list),
    }
}

// What refuses a begin or a batch at a node that is off: 3 where the minute or the weights are none, else 5, with 4 and 10 of the record still before it.
fn off_begin(bytes: &[u8], me: u8, w: BeginWith, garbled: bool) -> Refusal
    requires { check bytes.now ≡ 0 }
    ensures { code_of result ≡ cond garbled 3 (out_of_turn_after (begin_of tree (record_of bytes.now) me w).number) }
{
    if garbled {
        return Refusal::Garbled;
    }
    late(record_calls::may_begin(bytes, me, w))
}

// What refuses a call at a node that is off; nothing is altered. Ruled out: 13 at a node that is off; 10 for classes loaded there.
pub fn refuse_off(bytes: &[u8], settings: &[u8], me: u8, a: Ask, list: &[u8]) -> Refusal
    ensures { code_of result ≡ off_told bytes.now settings.now me (call_of a list.now) }
{
    let act = a.act;
    if let Err(refusal) = first_refusal(check_lent(bytes, settings), check_list(act, list)) {
        return refusal;
    }
    let with = a.with;
    let late = LAST_MINUTE < a.minute;
    match act {
        Act::Begin => off_begin(bytes, me, with, late),
        Act::Batch => off_begin(bytes, me, with, either(classes::is_overweight(list), late)),
        _ => not_yours(me),
    }
}

// What refuses a begin or a batch at what is no node: 3 where the minute or the weights are none.
fn stranger(garbled: bool) -> Refusal
    ensures { code_of result ≡ cond garbled 3 4 }
{
    if garbled {
        Refusal::Garbled
    } else {
        Refusal::Stranger
    }
}

// What refuses a call at what is no node. Ruled out: 4 for a batch that is too long; 5 for what is no node.
pub fn refuse_nowhere(a: Ask, list: &[u8]) -> Refusal
    ensures { code_of result ≡ nowhere (call_of a list.now) }
{
    let act = a.act;
    if let Err(refusal) = check_list(act, list) {
        return refusal;
    }
    let late = LAST_MINUTE < a.minute;
    match act {
        Act::Begin => stranger(late),
        Act::Batch => stranger(either(classes::is_overweight(list), late)),
        _ => Refusal::Stranger,
    }
}
