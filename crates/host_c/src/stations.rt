// A station: `host::stations`, exported.
ghost use Rattle.std.specs.Prelude.{◌≡◌, []};
ghost use Rattle.octets.specs.Signed.{bits_of};
ghost use Rattle.increments.specs.Deeds.{reads, writes, values};
ghost use Rattle.frontend.specs.Plan.{begin, batch, edit, request, load_classes};
ghost use Rattle.steps.specs.Step.{found, reselect, abort};
ghost use Rattle.buffers.specs.Buffers.{all, ends};
ghost use Rattle.station_calls.specs.Calls.{host_told, host_records, switching, switch_told, switch_own};
ghost use Rattle.station.specs.Messages.{sending, send_told, send_pool, delivery_told, delivery_images, delivery_records, delivery_pool, dropping, drop_told};
ghost use Rattle.station.specs.Messages.{drop_pool};
ghost use Rattle.service_calls.specs.Lent.{lent, front_told, front_records, front_settings, load_told, load_settings, blank_number, blank_after};
ghost use Rattle.host.specs.Records.{begin_with};
ghost use Rattle.host.specs.Stations.{told_with, records_with, begin_told_with, begin_records_with, begin_settings_with};
ghost use Rattle.host.specs.Stations.{value_of, yes, waiting_in, waiting_at};

use buffers::Answer;
use host::records::Value;
use host::stations::Waiting;

#[unsafe(no_mangle)]
pub extern "C" fn senna_station_blank(
    images: &mut [u8],
    records: &mut [u8],
    pool: &mut [u8],
    own: &mut [u8],
    settings: &mut [u8],
    on: u16,
) -> u8
    ensures value { result ≡ blank_number
        (lent images.old records.old pool.old own.old settings.old) on }
    ensures settings_after { lent images.new records.new pool.new own.new settings.new
        ≡ blank_after (lent images.old records.old pool.old own.old settings.old) on }
{
    host::stations::senna_station_blank(images, records, pool, own, settings, on)
}

#[unsafe(no_mangle)]
pub extern "C" fn senna_station_begin(
    records: &mut [u8],
    own: &[u8],
    settings: &mut [u8],
    node: u8,
    live: u16,
    distances: &[u8],
    timestamp: u32,
    day: u32,
    minute: u16,
) -> Answer
    ensures value { result ≡ begin_told_with distances.now (lent [] records.old [] own.now settings.old) node
        (begin (begin_with live distances.now timestamp) day minute) }
    ensures records_after { records.new ≡ begin_records_with distances.now
        (lent [] records.old [] own.now settings.old) node
        (begin (begin_with live distances.now timestamp) day minute) }
    ensures settings_after { settings.new ≡ begin_settings_with distances.now
        (lent [] records.old [] own.now settings.old) node
        (begin (begin_with live distances.now timestamp) day minute) }
{
    host::stations::senna_station_begin(
        records, own, settings, node, live, distances, timestamp, day, minute,
    )
}

#[unsafe(no_mangle)]
pub extern "C" fn senna_station_batch(
    records: &mut [u8],
    own: &[u8],
    settings: &mut [u8],
    node: u8,
    live: u16,
    distances: &[u8],
    timestamp: u32,
    day: u32,
    minute: u16,
    list: &[u8],
) -> Answer
    ensures value { result ≡ begin_told_with distances.now (lent [] records.old [] own.now settings.old) node
        (batch (begin_with live distances.now timestamp) day minute list.now) }
    ensures records_after { records.new ≡ begin_records_with distances.now
        (lent [] records.old [] own.now settings.old) node
        (batch (begin_with live distances.now timestamp) day minute list.now) }
    ensures settings_after { settings.new ≡ begin_settings_with distances.now
        (lent [] records.old [] own.now settings.old) node
        (batch (begin_with live distances.now timestamp) day minute list.now) }
{
    host::stations::senna_station_batch(
        records, own, settings, node, live, distances, timestamp, day, minute, list,
    )
}

#[unsafe(no_mangle)]
pub extern "C" fn senna_station_load_hours(
    own: &[u8],
    settings: &mut [u8],
    node: u8,
    list: &[u8],
) -> Answer
    ensures value { result ≡ load_told (lent [] [] [] own.now settings.old) node list.now }
    ensures settings_after { settings.new ≡ load_settings (lent [] [] [] own.now settings.old) node list.now }
{
    host::stations::senna_station_load_hours(own, settings, node, list)
}

#[unsafe(no_mangle)]
pub extern "C" fn senna_station_load_classes(
    records: &mut [u8],
    own: &[u8],
    settings: &mut [u8],
    node: u8,
    list: &[u8],
) -> Answer
    ensures value { result ≡ front_told (lent [] records.old [] own.now settings.old) node (load_classes list.now) }
    ensures records_after { records.new
        ≡ front_records (lent [] records.old [] own.now settings.old) node (load_classes list.now) }
    ensures settings_after { settings.new
        ≡ front_settings (lent [] records.old [] own.now settings.old) node (load_classes list.now) }
    ensures records_unchanged { records.new ≡ records.old }
{
    host::stations::senna_station_load_classes(records, own, settings, node, list)
}

#[unsafe(no_mangle)]
pub extern "C" fn senna_station_open_read(
    records: &mut [u8],
    own: &[u8],
    settings: &mut [u8],
    node: u8,
    object: u8,
) -> Answer
    ensures value { result ≡ front_told (lent [] records.old [] own.now settings.old) node (edit (reads object)) }
    ensures records_after { records.new
        ≡ front_records (lent [] records.old [] own.now settings.old) node (edit (reads object)) }
    ensures settings_after { settings.new
        ≡ front_settings (lent [] records.old [] own.now settings.old) node (edit (reads object)) }
    ensures settings_unchanged { settings.new ≡ settings.old }
{
    host::stations::senna_station_open_read(records, own, settings, node, object)
}

#[unsafe(no_mangle)]
pub extern "C" fn senna_station_open_write(
    records: &mut [u8],
    own: &[u8],
    settings: &mut [u8],
    node: u8,
    object: u8,
) -> Answer
    ensures value { result ≡ front_told (lent [] records.old [] own.now settings.old) node (edit (writes object)) }
    ensures records_after { records.new
        ≡ front_records (lent [] records.old [] own.now settings.old) node (edit (writes object)) }
    ensures settings_after { settings.new
        ≡ front_settings (lent [] records.old [] own.now settings.old) node (edit (writes object)) }
    ensures settings_unchanged { settings.new ≡ settings.old }
{
    host::stations::senna_station_open_write(records, own, settings, node, object)
}

#[unsafe(no_mangle)]
pub extern "C" fn senna_station_set_value(
    records: &mut [u8],
    own: &[u8],
    settings: &mut [u8],
    node: u8,
    object: u8,
    value: i64,
) -> Answer
    ensures value { result
        ≡ front_told (lent [] records.old [] own.now settings.old) node (edit (values object (bits_of value))) }
    ensures records_after { records.new
        ≡ front_records (lent [] records.old [] own.now settings.old) node (edit (values object (bits_of value))) }
    ensures settings_after { settings.new
        ≡ front_settings (lent [] records.old [] own.now settings.old) node (edit (values object (bits_of value))) }
    ensures settings_unchanged { settings.new ≡ settings.old }
{
    host::stations::senna_station_set_value(records, own, settings, node, object, value)
}

#[unsafe(no_mangle)]
pub extern "C" fn senna_station_found(records: &mut [u8], own: &[u8], node: u8, object: u8) -> Value
    ensures value { result ≡ value_of (host_told (ends records.old own.now) node (found node object)) }
    ensures records_after { records.new ≡ host_records (ends records.old own.now) node (found node object) }
{
    host::stations::senna_station_found(records, own, node, object)
}

#[unsafe(no_mangle)]
pub extern "C" fn senna_station_reselect(
    records: &mut [u8],
    own: &[u8],
    node: u8,
    live: u16,
    distances: &[u8],
) -> Answer
    ensures value { result ≡ told_with distances.now (ends records.old own.now) node (reselect node live) }
    ensures records_after { records.new ≡ records_with distances.now (ends records.old own.now) node (reselect node live) }
{
    host::stations::senna_station_reselect(records, own, node, live, distances)
}

#[unsafe(no_mangle)]
pub extern "C" fn senna_station_request_commit(
    records: &mut [u8],
    own: &[u8],
    settings: &mut [u8],
    node: u8,
) -> Answer
    ensures value { result ≡ front_told (lent [] records.old [] own.now settings.old) node request }
    ensures records_after { records.new
        ≡ front_records (lent [] records.old [] own.now settings.old) node request }
    ensures settings_after { settings.new
        ≡ front_settings (lent [] records.old [] own.now settings.old) node request }
    ensures settings_unchanged { settings.new ≡ settings.old }
{
    host::stations::senna_station_request_commit(records, own, settings, node)
}

#[unsafe(no_mangle)]
pub extern "C" fn senna_station_abort(records: &mut [u8], own: &[u8], node: u8) -> Answer
    ensures value { result ≡ host_told (ends records.old own.now) node (abort node) }
    ensures records_after { records.new ≡ host_records (ends records.old own.now) node (abort node) }
{
    host::stations::senna_station_abort(records, own, node)
}

#[unsafe(no_mangle)]
pub extern "C" fn senna_station_send(
    records: &[u8],
    pool: &mut [u8],
    own: &[u8],
    node: u8,
    to: u8,
    object: u8,
) -> Answer
    ensures value { result ≡ send_told (sending records.now pool.old own.now) node to object }
    ensures pool_after { pool.new ≡ send_pool (sending records.now pool.old own.now) node to object }
{
    host::stations::senna_station_send(records, pool, own, node, to, object)
}

#[unsafe(no_mangle)]
pub extern "C" fn senna_station_deliver(
    images: &mut [u8],
    records: &mut [u8],
    pool: &mut [u8],
    own: &[u8],
    k: u8,
    kept: u8,
) -> Answer
    ensures value { result ≡ delivery_told (all images.old records.old pool.old own.now) k (yes kept) }
    ensures images_after { images.new
        ≡ delivery_images (all images.old records.old pool.old own.now) k (yes kept) }
    ensures records_after { records.new
        ≡ delivery_records (all images.old records.old pool.old own.now) k (yes kept) }
    ensures pool_after { pool.new ≡ delivery_pool (all images.old records.old pool.old own.now) k (yes kept) }
{
    host::stations::senna_station_deliver(images, records, pool, own, k, kept)
}

#[unsafe(no_mangle)]
pub extern "C" fn senna_station_drop(pool: &mut [u8], k: u8) -> Answer
    ensures value { result ≡ drop_told (dropping pool.old) k }
    ensures pool_after { pool.new ≡ drop_pool (dropping pool.old) k }
{
    host::stations::senna_station_drop(pool, k)
}

#[unsafe(no_mangle)]
pub extern "C" fn senna_station_switch(own: &mut [u8], node: u8, up: u8) -> Answer
    ensures value { result ≡ switch_told (switching own.old) node (yes up) }
    ensures own_after { own.new ≡ switch_own (switching own.old) node (yes up) }
{
    host::stations::senna_station_switch(own, node, up)
}

#[unsafe(no_mangle)]
pub extern "C" fn senna_station_waiting(pool: &[u8]) -> usize
    ensures { result ≡ waiting_in pool.now }
{
    host::stations::senna_station_waiting(pool)
}

#[unsafe(no_mangle)]
pub extern "C" fn senna_station_message(pool: &[u8], k: u8) -> Waiting
    ensures { result ≡ waiting_at pool.now k }
{
    host::stations::senna_station_message(pool, k)
}
