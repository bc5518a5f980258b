// The host's calls at a node: on the bytes of its record where the node is on, else the buffers' own numbers first and then the call's at a node that is off.
ghost use Rattle.std.specs.Prelude.{◌≡◌, cond, eqb};
ghost use Rattle.numbers.specs.Numbers.{damaged};
ghost use Rattle.steps.specs.Step.{begin, open_read, open_write, set_value, found, reselect, request_commit, abort, when_off};
ghost use Rattle.buffers.specs.Buffers.{ends};
ghost use Rattle.station_calls.specs.Calls.{is_on, answer_of, host_told, host_records};

use buffers::{Answer, OWN, RECORDS, ends_number, on, refused, when_off};
use coordinator::BeginWith;
use numbers::{EVERY_NODE, NODES, NODES_END, either};
use record::Called;

// Whether the buffers have their lengths, the mask names nodes alone, and the node is on: then the call works on the bytes of its record.
fn is_on(records: usize, own: &[u8], node: u8) -> bool
    ensures { result ≡ is_on records own.now node }
{
    if either(records != RECORDS, own.len() != OWN) {
        return false;
    }
    let nodes = on(own);
    if EVERY_NODE < nodes {
        return false;
    }
    mask::has(nodes, node)
}

// What a call on the bytes of a record answers; a refusal has no answer.
fn answered(c: Called) -> Answer
    ensures { result ≡ answer_of c }
{
    if c.number != 0 {
        return refused(c.number);
    }
    Answer {
        number: 0,
        answer: c.answer,
    }
}

// The number of a host call at a node that is off, from the one on the bytes of its record: 2 stays.
fn off_number(number: u8) -> u8
    ensures { result ≡ cond (eqb number damaged) damaged (when_off number) }
{
    if number == numbers::DAMAGED {
        return number;
    }
    when_off(number)
}

// Begins a transaction at a node; answers the chosen read quorum. Ruled out: another node's record begun; a begin at a node that is off.
pub fn begin(records: &mut [u8], own: &[u8], node: u8, w: BeginWith) -> Answer
    ensures value { result ≡ host_told (ends records.old own.now) node (begin node w) }
    ensures records_after { records.new ≡ host_records (ends records.old own.now) node (begin node w) }
{
    if is_on(records.len(), own, node) {
        let start = record::SIZE * usize::from(node);
        let end = start + record::SIZE;
        let c = Called::from(record_calls::begin(&mut records[start..end], node, w));
        return answered(c);
    }
    let number = ends_number(records.len(), own);
    if number != 0 {
        return refused(number);
    }
    if NODES_END <= node {
        return refused(numbers::STRANGER);
    }
    let start = record::SIZE * usize::from(node);
    let end = start + record::SIZE;
    let alone = numbers::number(record_calls::may_begin(&records[start..end], node, w));
    refused(off_number(alone))
}

// Opens an object to read it. Ruled out: it is opened to be written; a byte of another node's record altered.
pub fn open_read(records: &mut [u8], own: &[u8], node: u8, object: u8) -> Answer
    ensures value { result ≡ host_told (ends records.old own.now) node (open_read node object) }
    ensures records_after { records.new ≡ host_records (ends records.old own.now) node (open_read node object) }
{
    if is_on(records.len(), own, node) {
        let start = record::SIZE * usize::from(node);
        let end = start + record::SIZE;
        let c = Called::from(record_calls::open_read(&mut records[start..end], node, object));
        return answered(c);
    }
    let number = ends_number(records.len(), own);
    if number != 0 {
        return refused(number);
    }
    if NODES_END <= node {
        return refused(numbers::STRANGER);
    }
    let start = record::SIZE * usize::from(node);
    let end = start + record::SIZE;
    let alone = numbers::number(record_calls::may_open(&records[start..end], node, object));
    refused(off_number(alone))
}

// Opens an object to write it. Ruled out: it is opened to be read; 5 for a node above 12.
pub fn open_write(records: &mut [u8], own: &[u8], node: u8, object: u8) -> Answer
    ensures value { result ≡ host_told (ends records.old own.now) node (open_write node object) }
    ensures records_after { records.new ≡ host_records (ends records.old own.now) node (open_write node object) }
{
    if is_on(records.len(), own, node) {
        let start = record::SIZE * usize::from(node);
        let end = start + record::SIZE;
        let c = Called::from(record_calls::open_write(&mut records[start..end], node, object));
        return answered(c);
    }
    let number = ends_number(records.len(), own);
    if number != 0 {
        return refused(number);
    }
    if NODES_END <= node {
        return refused(numbers::STRANGER);
    }
    let start = record::SIZE * usize::from(node);
    let end = start + record::SIZE;
    let alone = numbers::number(record_calls::may_open(&records[start..end], node, object));
    refused(off_number(alone))
}

// Gives a written object its new value. Ruled out: the value of another object set; a damaged record taken.
pub fn set_value(records: &mut [u8], own: &[u8], node: u8, object: u8, value: u64) -> Answer
    ensures value { result ≡ host_told (ends records.old own.now) node (set_value node object value) }
    ensures records_after { records.new ≡ host_records (ends records.old own.now) node (set_value node object value) }
{
    if is_on(records.len(), own, node) {
        let start = record::SIZE * usize::from(node);
        let end = start + record::SIZE;
        let c = Called::from(record_calls::set_value(
            &mut records[start..end],
            node,
            object,
            value,
        ));
        return answered(c);
    }
    let number = ends_number(records.len(), own);
    if number != 0 {
        return refused(number);
    }
    if NODES_END <= node {
        return refused(numbers::STRANGER);
    }
    let start = record::SIZE * usize::from(node);
    let end = start + record::SIZE;
    let alone = numbers::number(record_calls::may_set(&records[start..end], node, object));
    refused(off_number(alone))
}

// Answers the value found for a ready object. Ruled out: the new value; the value found at another node.
pub fn found(records: &mut [u8], own: &[u8], node: u8, object: u8) -> Answer
    ensures value { result ≡ host_told (ends records.old own.now) node (found node object) }
    ensures records_after { records.new ≡ host_records (ends records.old own.now) node (found node object) }
{
    if is_on(records.len(), own, node) {
        let start = record::SIZE * usize::from(node);
        let end = start + record::SIZE;
        let c = Called::from(record_calls::found(&mut records[start..end], node, object));
        return answered(c);
    }
    let number = ends_number(records.len(), own);
    if number != 0 {
        return refused(number);
    }
    if NODES_END <= node {
        return refused(numbers::STRANGER);
    }
    let start = record::SIZE * usize::from(node);
    let end = start + record::SIZE;
    let alone = numbers::number(record_calls::may_tell(&records[start..end], node, object));
    refused(off_number(alone))
}

// Takes a fresh live mask and distances. Ruled out: the old quorum answered; the old distances kept.
pub fn reselect(
    records: &mut [u8],
    own: &[u8],
    node: u8,
    live: u16,
    distances: [u16; NODES],
) -> Answer
    ensures value { result ≡ host_told (ends records.old own.now) node (reselect node live distances) }
    ensures records_after { records.new ≡ host_records (ends records.old own.now) node (reselect node live distances) }
{
    if is_on(records.len(), own, node) {
        let start = record::SIZE * usize::from(node);
        let end = start + record::SIZE;
        let c = Called::from(record_calls::reselect(
            &mut records[start..end],
            node,
            live,
            distances,
        ));
        return answered(c);
    }
    let number = ends_number(records.len(), own);
    if number != 0 {
        return refused(number);
    }
    if NODES_END <= node {
        return refused(numbers::STRANGER);
    }
    let start = record::SIZE * usize::from(node);
    let end = start + record::SIZE;
    let alone = numbers::number(record_calls::may_reselect(
        &records[start..end],
        node,
        live,
        distances,
    ));
    refused(off_number(alone))
}

// Asks for votes; answers the participants. Ruled out: 8 before 11; a record that stays open.
pub fn request_commit(records: &mut [u8], own: &[u8], node: u8) -> Answer
    ensures value { result ≡ host_told (ends records.old own.now) node (request_commit node) }
    ensures records_after { records.new ≡ host_records (ends records.old own.now) node (request_commit node) }
{
    if is_on(records.len(), own, node) {
        let start = record::SIZE * usize::from(node);
        let end = start + record::SIZE;
        let c = Called::from(record_calls::request_commit(&mut records[start..end], node));
        return answered(c);
    }
    let number = ends_number(records.len(), own);
    if number != 0 {
        return refused(number);
    }
    if NODES_END <= node {
        return refused(numbers::STRANGER);
    }
    let start = record::SIZE * usize::from(node);
    let end = start + record::SIZE;
    let alone = numbers::number(record_calls::may_request(&records[start..end], node));
    refused(off_number(alone))
}

// Gives the transaction up. Ruled out: 0 at a node that is off; number 0 with the record left as it was.
pub fn abort(records: &mut [u8], own: &[u8], node: u8) -> Answer
    ensures value { result ≡ host_told (ends records.old own.now) node (abort node) }
    ensures records_after { records.new ≡ host_records (ends records.old own.now) node (abort node) }
{
    if is_on(records.len(), own, node) {
        let start = record::SIZE * usize::from(node);
        let end = start + record::SIZE;
        let c = Called::from(record_calls::abort(&mut records[start..end], node));
        return answered(c);
    }
    let number = ends_number(records.len(), own);
    if number != 0 {
        return refused(number);
    }
    if NODES_END <= node {
        return refused(numbers::STRANGER);
    }
    let start = record::SIZE * usize::from(node);
    let end = start + record::SIZE;
    let alone = numbers::number(record_calls::may_abort(&records[start..end], node));
    refused(off_number(alone))
}
