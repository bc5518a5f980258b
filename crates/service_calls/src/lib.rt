// The station with thirteen front ends, over five lent buffers: the station's four and the settings. A host's call goes by its node's front end, hours are
// loaded, and a blank service is made; every other step is the station's own.
#![tactic(auto)]

ghost use Rattle.std.specs.Prelude.{◌≡◌, []};
ghost use Rattle.numbers.specs.Outcome.{number_of};
ghost use Rattle.frontend.specs.Asked.{call_of};
ghost use Rattle.record.specs.declared.Called.{Called};
ghost use Rattle.buffers.specs.Buffers.{answer_with};
ghost use Rattle.service_calls.specs.Lent.{lent, settings_first, front_told, front_records, front_settings, load_told, load_settings, blank_number};
ghost use Rattle.service_calls.specs.Lent.{blank_after};

use buffers::{Answer, ends_number, on, own_number, refused};
use frontend::Ask;
use numbers::{NODES, NODES_END, Refusal, lower, refuse};
use record::Called;

// The bytes of thirteen nodes' settings.
pub const SETTINGS: usize = settings::SETTINGS * NODES;

// What a call on a record tells, as an answer.
fn answered(r: Called) -> Answer
    ensures { result ≡ answer_with r.number r.answer }
{
    Answer {
        number: r.number,
        answer: r.answer,
    }
}

// Whether the settings are lent whole: 1 another length, 2 damaged ones of the node.
fn check_settings(settings: &[u8], node: u8) -> Result<(), Refusal>
    ensures { number_of result ≡ settings_first settings.now node }
{
    if settings.len() != SETTINGS {
        return Err(Refusal::Length);
    }
    if NODES_END <= node {
        return Ok(());
    }
    let start = settings::SETTINGS * usize::from(node);
    let end = start + settings::SETTINGS;
    match settings::check(&settings[start..end]) {
        Ok(()) => Ok(()),
        Err(_) => Err(Refusal::Damaged),
    }
}

// A host's call at a node, by its front end: over the node's record and settings where it is on, else its number alone. Ruled out: another node's record
// altered; 13 at a node that is off.
pub fn front(
    records: &mut [u8],
    own: &[u8],
    settings: &mut [u8],
    node: u8,
    a: Ask,
    list: &[u8],
) -> Answer
    ensures value { result ≡ front_told (lent [] records.old [] own.now settings.old) node (call_of a list.now) }
    ensures records_after { records.new
        ≡ front_records (lent [] records.old [] own.now settings.old) node (call_of a list.now) }
    ensures settings_after { settings.new
        ≡ front_settings (lent [] records.old [] own.now settings.old) node (call_of a list.now) }
{
    let act = a.act;
    let short = refuse(numbers::LENGTH, settings.len() != SETTINGS, 0);
    let ends = lower(ends_number(records.len(), own), short);
    let first = lower(ends, numbers::number(frontend::check_list(act, list)));
    if first != 0 {
        return refused(first);
    }
    if NODES_END <= node {
        return refused(u8::from(frontend::refuse_nowhere(a, list)));
    }
    let r = record::SIZE * usize::from(node);
    let s = settings::SETTINGS * usize::from(node);
    if mask::has(on(own), node) {
        let called = frontend::front(
            &mut records[r..r + record::SIZE],
            &mut settings[s..s + settings::SETTINGS],
            node,
            a,
            list,
        );
        return answered(called);
    }
    let refusal = frontend::refuse_off(
        &records[r..r + record::SIZE],
        &settings[s..s + settings::SETTINGS],
        node,
        a,
        list,
    );
    refused(u8::from(refusal))
}

// Loads a table of packing hours for a node, in any phase. Ruled out: another node's hours replaced; a faulty table that takes the old one's place.
pub fn load_hours(own: &[u8], settings: &mut [u8], node: u8, list: &[u8]) -> Answer
    ensures value { result ≡ load_told (lent [] [] [] own.now settings.old) node list.now }
    ensures settings_after { settings.new ≡ load_settings (lent [] [] [] own.now settings.old) node list.now }
{
    let lent = lower(
        own_number(own),
        numbers::number(check_settings(settings, node)),
    );
    let table = numbers::number(hours::check_table(list));
    let first = lower(lent, table);
    if first != 0 {
        return refused(first);
    }
    if NODES_END <= node {
        return refused(numbers::STRANGER);
    }
    if mask::has(on(own), node) {
        let start = settings::SETTINGS * usize::from(node);
        let end = start + settings::SETTINGS;
        // What refuses it was answered above.
        let _ = settings::load_hours(&mut settings[start..end], list);
        return refused(0);
    }
    refused(numbers::OUT_OF_TURN)
}

// Makes a blank service whose nodes of a mask are on: a blank station, and nothing loaded. Ruled out: a table kept; a byte altered where one buffer is too
// short.
pub fn blank(
    images: &mut [u8],
    records: &mut [u8],
    pool: &mut [u8],
    own: &mut [u8],
    settings: &mut [u8],
    on: u16,
) -> Result<(), Refusal>
    ensures value { number_of result ≡ blank_number
        (lent images.old records.old pool.old own.old settings.old) on }
    ensures settings_after { lent images.new records.new pool.new own.new settings.new
        ≡ blank_after (lent images.old records.old pool.old own.old settings.old) on }
{
    if settings.len() != SETTINGS {
        return Err(Refusal::Length);
    }
    station_calls::blank(images, records, pool, own, on)?;
    parts::zero(settings);
    Ok(())
}
