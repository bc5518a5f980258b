// A station for C: made blank, every step, and what waits. Each function states the same equation as what it wraps; and a buffer that is const in C is as it
// was.
ghost use Rattle.std.specs.Prelude.{◌≡◌, []};
ghost use Rattle.octets.specs.Signed.{bits_of};
ghost use Rattle.increments.specs.Deeds.{reads, writes, values};
ghost use Rattle.frontend.specs.Plan.{begin, batch, edit, request, load_classes};
ghost use Rattle.steps.specs.Step.{found, reselect, abort};
ghost use Rattle.buffers.specs.Buffers.{all, ends, answer_with};
ghost use Rattle.station_calls.specs.Calls.{host_told, host_records, switching, switch_told, switch_own};
ghost use Rattle.station.specs.Messages.{sending, send_told, send_pool, delivery_told, delivery_images, delivery_records, delivery_pool, dropping, drop_told};
ghost use Rattle.station.specs.Messages.{drop_pool};
ghost use Rattle.service_calls.specs.Lent.{lent, front_told, front_records, front_settings, load_told, load_settings, blank_number, blank_after};
ghost use Rattle.host.specs.Records.{begin_with};
ghost use Rattle.host.specs.Stations.{told_with, records_with, begin_told_with, begin_records_with, begin_settings_with, ask_begin, ask_object};
ghost use Rattle.host.specs.Stations.{value_of, yes, waiting_in, waiting_at};

use crate::records::Value;
use crate::{DISTANCES, distances_of};
use buffers::Answer;
use coordinator::BeginWith;
use frontend::{Act, Ask};
use numbers::NODES;

// Where a waiting message stands in the pool and how long it is; on a refusal both are 0.
#[repr(C)]
#[derive(Clone, Copy)]
pub struct Waiting {
    pub number: u8,
    pub place: usize,
    pub length: usize,
}

// Makes a blank station whose nodes of a mask are on, with nothing loaded. Ruled out: a message that still waits; a byte altered where one buffer is
// too short.
pub fn senna_station_blank(
    images: &mut [u8],
    records: &mut [u8],
    pool: &mut [u8],
    own: &mut [u8],
    settings: &mut [u8],
    on: u16,
) -> u8
    ensures value { result ≡ blank_number
        (lent images.old records.old pool.old own.old settings.old) on }
    ensures settings_after { lent images.new records.new pool.new own.new settings.new
        ≡ blank_after (lent images.old records.old pool.old own.old settings.old) on }
{
    numbers::number(service_calls::blank(images, records, pool, own, settings, on))
}

// The distances have another length.
fn wrong_length() -> Answer
    ensures { result ≡ answer_with 1 0 }
{
    Answer {
        number: numbers::LENGTH,
        answer: 0,
    }
}

// What a front end is asked that begins; what a begin does not have is 0.
fn ask_begin(act: Act, live: u16, distances: &[u8], timestamp: u32, day: u32, minute: u16) -> Ask
    ensures { result ≡ ask_begin act (begin_with live distances.now timestamp) day minute }
{
    let d = distances_of(distances);
    let with = BeginWith {
        live,
        distances: d,
        timestamp,
    };
    Ask {
        act,
        with,
        object: 0,
        value: 0,
        day,
        minute,
    }
}

// What a front end is asked that does not begin; what it has no use for is 0.
fn ask_object(act: Act, object: u8, value: u64) -> Ask
    ensures { result ≡ ask_object act object value }
{
    let with = BeginWith {
        live: 0,
        distances: [0; NODES],
        timestamp: 0,
    };
    Ask {
        act,
        with,
        object,
        value,
        day: 0,
        minute: 0,
    }
}

// Begins a transaction of the host's own at a node, on a day, at a minute; answers the chosen read quorum. Ruled out: 10 for distances of 25 bytes; a begin
// by another node's hours.
pub fn senna_station_begin(
    records: &mut [u8],
    own: &[u8],
    settings: &mut [u8],
    node: u8,
    live: u16,
    distances: &[u8],
    timestamp: u32,
    day: u32,
    minute: u16,
) -> Answer
    ensures value { result ≡ begin_told_with distances.now (lent [] records.old [] own.now settings.old) node
        (begin (begin_with live distances.now timestamp) day minute) }
    ensures records_after { records.new ≡ begin_records_with distances.now
        (lent [] records.old [] own.now settings.old) node
        (begin (begin_with live distances.now timestamp) day minute) }
    ensures settings_after { settings.new ≡ begin_settings_with distances.now
        (lent [] records.old [] own.now settings.old) node
        (begin (begin_with live distances.now timestamp) day minute) }
{
    if distances.len() != DISTANCES {
        return wrong_length();
    }
    let a = ask_begin(Act::Begin, live, distances, timestamp, day, minute);
    service_calls::front(records, own, settings, node, a, &[])
}

// Begins a batch of weights at a node, on a day, at a minute; answers the chosen read quorum. Ruled out: a batch by another node's classes; 13 at a node that
// is off.
pub fn senna_station_batch(
    records: &mut [u8],
    own: &[u8],
    settings: &mut [u8],
    node: u8,
    live: u16,
    distances: &[u8],
    timestamp: u32,
    day: u32,
    minute: u16,
    list: &[u8],
) -> Answer
    ensures value { result ≡ begin_told_with distances.now (lent [] records.old [] own.now settings.old) node
        (batch (begin_with live distances.now timestamp) day minute list.now) }
    ensures records_after { records.new ≡ begin_records_with distances.now
        (lent [] records.old [] own.now settings.old) node
        (batch (begin_with live distances.now timestamp) day minute list.now) }
    ensures settings_after { settings.new ≡ begin_settings_with distances.now
        (lent [] records.old [] own.now settings.old) node
        (batch (begin_with live distances.now timestamp) day minute list.now) }
{
    if distances.len() != DISTANCES {
        return wrong_length();
    }
    let a = ask_begin(Act::Batch, live, distances, timestamp, day, minute);
    service_calls::front(records, own, settings, node, a, list)
}

// Loads a table of packing hours for a node, in any phase. Ruled out: another node's hours replaced; a faulty table that takes the old one's place.
pub fn senna_station_load_hours(own: &[u8], settings: &mut [u8], node: u8, list: &[u8]) -> Answer
    ensures value { result ≡ load_told (lent [] [] [] own.now settings.old) node list.now }
    ensures settings_after { settings.new ≡ load_settings (lent [] [] [] own.now settings.old) node list.now }
{
    service_calls::load_hours(own, settings, node, list)
}

// Loads a table of classes for a node; none waits there after it. Ruled out: a table loaded while the node's transaction is open; another node's classes
// replaced.
pub fn senna_station_load_classes(
    records: &mut [u8],
    own: &[u8],
    settings: &mut [u8],
    node: u8,
    list: &[u8],
) -> Answer
    ensures value { result ≡ front_told (lent [] records.old [] own.now settings.old) node (load_classes list.now) }
    ensures records_after { records.new
        ≡ front_records (lent [] records.old [] own.now settings.old) node (load_classes list.now) }
    ensures settings_after { settings.new
        ≡ front_settings (lent [] records.old [] own.now settings.old) node (load_classes list.now) }
    ensures records_unchanged { records.new ≡ records.old }
{
    service_calls::front(
        records,
        own,
        settings,
        node,
        ask_object(Act::LoadClasses, 0, 0),
        list,
    )
}

// Opens an object to read it. Ruled out: an object opened on a batch; a byte of another node's record altered.
pub fn senna_station_open_read(
    records: &mut [u8],
    own: &[u8],
    settings: &mut [u8],
    node: u8,
    object: u8,
) -> Answer
    ensures value { result ≡ front_told (lent [] records.old [] own.now settings.old) node (edit (reads object)) }
    ensures records_after { records.new
        ≡ front_records (lent [] records.old [] own.now settings.old) node (edit (reads object)) }
    ensures settings_after { settings.new
        ≡ front_settings (lent [] records.old [] own.now settings.old) node (edit (reads object)) }
    ensures settings_unchanged { settings.new ≡ settings.old }
{
    service_calls::front(
        records,
        own,
        settings,
        node,
        ask_object(Act::OpenRead, object, 0),
        &[],
    )
}

// Opens an object to write it. Ruled out: an open to read; 5 for a node above 12.
pub fn senna_station_open_write(
    records: &mut [u8],
    own: &[u8],
    settings: &mut [u8],
    node: u8,
    object: u8,
) -> Answer
    ensures value { result ≡ front_told (lent [] records.old [] own.now settings.old) node (edit (writes object)) }
    ensures records_after { records.new
        ≡ front_records (lent [] records.old [] own.now settings.old) node (edit (writes object)) }
    ensures settings_after { settings.new
        ≡ front_settings (lent [] records.old [] own.now settings.old) node (edit (writes object)) }
    ensures settings_unchanged { settings.new ≡ settings.old }
{
    service_calls::front(
        records,
        own,
        settings,
        node,
        ask_object(Act::OpenWrite, object, 0),
        &[],
    )
}

// Gives a written object its new value. Ruled out: the value with its sign lost; a value set at a node that is off.
pub fn senna_station_set_value(
    records: &mut [u8],
    own: &[u8],
    settings: &mut [u8],
    node: u8,
    object: u8,
    value: i64,
) -> Answer
    ensures value { result
        ≡ front_told (lent [] records.old [] own.now settings.old) node (edit (values object (bits_of value))) }
    ensures records_after { records.new
        ≡ front_records (lent [] records.old [] own.now settings.old) node (edit (values object (bits_of value))) }
    ensures settings_after { settings.new
        ≡ front_settings (lent [] records.old [] own.now settings.old) node (edit (values object (bits_of value))) }
    ensures settings_unchanged { settings.new ≡ settings.old }
{
    let a = ask_object(Act::SetValue, object, octets::bits(value));
    service_calls::front(records, own, settings, node, a, &[])
}

// Answers the value found for a ready object. Ruled out: the new value; a value with its sign lost.
pub fn senna_station_found(records: &mut [u8], own: &[u8], node: u8, object: u8) -> Value
    ensures value { result ≡ value_of (host_told (ends records.old own.now) node (found node object)) }
    ensures records_after { records.new ≡ host_records (ends records.old own.now) node (found node object) }
{
    let x = station_calls::found(records, own, node, object);
    Value {
        number: x.number,
        value: octets::signed(x.answer),
    }
}

// Takes a fresh live mask and distances; answers the chosen read quorum. Ruled out: 8 for distances of 25 bytes; the old quorum answered.
pub fn senna_station_reselect(
    records: &mut [u8],
    own: &[u8],
    node: u8,
    live: u16,
    distances: &[u8],
) -> Answer
    ensures value { result ≡ told_with distances.now (ends records.old own.now) node (reselect node live) }
    ensures records_after { records.new ≡ records_with distances.now (ends records.old own.now) node (reselect node live) }
{
    if distances.len() != DISTANCES {
        return wrong_length();
    }
    let d = distances_of(distances);
    station_calls::reselect(records, own, node, live, d)
}

// Asks for votes; answers the participants, or aborted beside 9 where a batch is given up. Ruled out: 8 before 11; a batch given up at a node that is off.
pub fn senna_station_request_commit(
    records: &mut [u8],
    own: &[u8],
    settings: &mut [u8],
    node: u8,
) -> Answer
    ensures value { result ≡ front_told (lent [] records.old [] own.now settings.old) node request }
    ensures records_after { records.new
        ≡ front_records (lent [] records.old [] own.now settings.old) node request }
    ensures settings_after { settings.new
        ≡ front_settings (lent [] records.old [] own.now settings.old) node request }
    ensures settings_unchanged { settings.new ≡ settings.old }
{
    service_calls::front(
        records,
        own,
        settings,
        node,
        ask_object(Act::RequestCommit, 0, 0),
        &[],
    )
}

// Gives the transaction up. Ruled out: a finishing one aborted; 0 at a node that is off.
pub fn senna_station_abort(records: &mut [u8], own: &[u8], node: u8) -> Answer
    ensures value { result ≡ host_told (ends records.old own.now) node (abort node) }
    ensures records_after { records.new ≡ host_records (ends records.old own.now) node (abort node) }
{
    station_calls::abort(records, own, node)
}

// Sends what is due to a node. Ruled out: a message put at the pool's front; a message where nothing is due.
pub fn senna_station_send(
    records: &[u8],
    pool: &mut [u8],
    own: &[u8],
    node: u8,
    to: u8,
    object: u8,
) -> Answer
    ensures value { result ≡ send_told (sending records.now pool.old own.now) node to object }
    ensures pool_after { pool.new ≡ send_pool (sending records.now pool.old own.now) node to object }
{
    station::send(records, pool, own, node, to, object)
}

// Delivers the k-th message; 0 for `kept` removes it, any other number keeps it waiting. Answers what it brought about at a coordinator.
// Ruled out: the neighbour's image changed; an answer from a node that is off.
pub fn senna_station_deliver(
    images: &mut [u8],
    records: &mut [u8],
    pool: &mut [u8],
    own: &[u8],
    k: u8,
    kept: u8,
) -> Answer
    ensures value { result ≡ delivery_told (all images.old records.old pool.old own.now) k (yes kept) }
    ensures images_after { images.new
        ≡ delivery_images (all images.old records.old pool.old own.now) k (yes kept) }
    ensures records_after { records.new
        ≡ delivery_records (all images.old records.old pool.old own.now) k (yes kept) }
    ensures pool_after { pool.new ≡ delivery_pool (all images.old records.old pool.old own.now) k (yes kept) }
{
    station::deliver(images, records, pool, own, k, kept != 0)
}

// Drops the k-th message. Ruled out: another message dropped; 0 where none waits.
pub fn senna_station_drop(pool: &mut [u8], k: u8) -> Answer
    ensures value { result ≡ drop_told (dropping pool.old) k }
    ensures pool_after { pool.new ≡ drop_pool (dropping pool.old) k }
{
    station::drop(pool, k)
}

// Switches a node: 0 off, any other number on. Ruled out: a repeated switch turns it back; another node is switched.
pub fn senna_station_switch(own: &mut [u8], node: u8, up: u8) -> Answer
    ensures value { result ≡ switch_told (switching own.old) node (yes up) }
    ensures own_after { own.new ≡ switch_own (switching own.old) node (yes up) }
{
    station_calls::switch(own, node, up != 0)
}

// How many messages wait; 0 for bytes that are no pool. Ruled out: one more than wait; the count byte of a damaged pool.
#[tactic(auto, unfolding(crate::specs::Stations::waiting_in))]
pub fn senna_station_waiting(pool: &[u8]) -> usize
    ensures { result ≡ waiting_in pool.now }
{
    if pool::check(pool).is_ok() {
        pool::count(pool)
    } else {
        0
    }
}

// A refused look at a message.
fn not_there(number: u8) -> Waiting
    ensures { result ≡ record { number = number; place = 0; length = 0 } }
{
    Waiting {
        number,
        place: 0,
        length: 0,
    }
}

// Where the k-th message stands, and its length. Ruled out: the place of its length; the length of the message behind it.
pub fn senna_station_message(pool: &[u8], k: u8) -> Waiting
    ensures { result ≡ waiting_at pool.now k }
{
    let number = numbers::number(pool::check(pool));
    if number != 0 {
        return not_there(number);
    }
    if pool::count(pool) <= usize::from(k) {
        return not_there(numbers::OUT_OF_TURN);
    }
    Waiting {
        number: 0,
        place: pool::place(k),
        length: pool::length(pool, k),
    }
}
