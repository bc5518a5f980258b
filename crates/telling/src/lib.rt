// Replay told of a batch: which objects it opens to write and their grams, once it has begun, and their new values, once its votes are asked for. Both are
// read from its node's record after the step.
#![tactic(auto)]

ghost use Rattle.std.specs.Prelude.{◌≡◌, cond, ◌<◌, length};
ghost use Rattle.numbers.specs.Sizes.{nodes};
ghost use Rattle.replay.specs.Sheet.{opened_after};
ghost use Rattle.record.specs.Record.{record_of};
ghost use Rattle.increments.specs.Deeds.{in_use};
ghost use Rattle.buffers.specs.Buffers.{records_size, record_at};
ghost use Rattle.service_calls.specs.Lent.{all_settings, settings_at};
ghost use Rattle.telling.specs.Telling.{object_told, objects_told, told_of, told};

use coordinator::Object;
use numbers::{MOST_OPEN, NODES_END};
use orders::Kind;
use record::look::{count, object_at};

// That an object was opened to write, if so.
fn mark(sheet: &mut [u64], node: u8, object: u8, opens: bool)
    ensures { sheet.new ≡ cond opens (opened_after sheet.old node object 1) sheet.old }
{
    if opens {
        replay::opened(sheet, node, object, 1);
    }
}

// An object: that it was opened, if so, and its new value; one that is read tells nothing.
fn object(sheet: &mut [u64], node: u8, x: Object, opens: bool)
    ensures { sheet.new ≡ object_told opens node x sheet.old }
{
    if x.mode == 0 {
        return;
    }
    mark(sheet, node, x.object, opens);
    replay::valued(sheet, node, x.object, x.new);
}

// The objects of a record.
fn objects(sheet: &mut [u64], node: u8, bytes: &[u8], opens: bool)
    ensures { sheet.new ≡ objects_told opens node (in_use (record_of bytes.now)) sheet.old }
{
    let n = count(bytes).min(MOST_OPEN);
    for i in 0..n {
        let x = object_at(bytes, i);
        object(sheet, node, x, opens);
    }
}

// What an accepted step of a node tells of its batch, over buffers of their lengths.
fn tell_node(records: &[u8], settings: &[u8], sheet: &mut [u64], kind: Kind, node: u8)
    requires { (length records.now ≡ records_size) × ((length settings.now ≡ all_settings) × (node < nodes)) }
    ensures { sheet.new
        ≡ told_of kind (record_of (record_at records.now node)) (settings_at settings.now node) node sheet.old }
{
    let start = record::SIZE * usize::from(node);
    let end = start + record::SIZE;
    match kind {
        Kind::Batch => objects(sheet, node, &records[start..end], true),
        Kind::RequestCommit => {
            let at = settings::SETTINGS * usize::from(node) + settings::KIND;
            if octets::get_u8(settings, at) != settings::OWN {
                objects(sheet, node, &records[start..end], false);
            }
        }
        _ => {}
    }
}

// What a step with a number tells, over any buffers that it left. Ruled out: a refused batch told; an amount told where the new value is its sum.
pub fn tell(records: &[u8], settings: &[u8], sheet: &mut [u64], kind: Kind, node: u8, number: u8)
    ensures { sheet.new ≡ told number kind records.now settings.now node sheet.old }
{
    if number != 0 {
        return;
    }
    if records.len() != buffers::RECORDS {
        return;
    }
    if settings.len() != service_calls::SETTINGS {
        return;
    }
    if NODES_END <= node {
        return;
    }
    tell_node(records, settings, sheet, kind, node);
}
