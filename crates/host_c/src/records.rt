// A coordinator's record: `host::records`, exported.
ghost use Rattle.std.specs.Prelude.{◌≡◌, cond, length, get_or};
ghost use Rattle.octets.specs.Signed.{bits_of};
ghost use Rattle.coordinator.specs.declared.Coordinator.{Coordinator};
ghost use Rattle.coordinator.specs.System.{tree};
ghost use Rattle.coordinator.specs.State.{no_object, ready};
ghost use Rattle.coordinator.specs.Calls.{found_of, abort_of};
ghost use Rattle.arrivals.specs.Receive.{receive_of};
ghost use Rattle.record.specs.Record.{check, shown};
ghost use Rattle.record.specs.Call.{called_of, record_after, blank_number, blank_after};
ghost use Rattle.record_arrive.specs.Call.{received_of};
ghost use Rattle.record_due.specs.Call.{record_due, record_due_buffer};
ghost use Rattle.increments.specs.Deeds.{reads, writes, values};
ghost use Rattle.frontend.specs.Plan.{begin, batch, edit, request, front_told, front_record};
ghost use Rattle.frontend.specs.Tell.{waiting_of};
ghost use Rattle.host.specs.Records.{answer_with, bytes_with, begun_with, bytes_begun, settings_begun, begin_with, reselect_step, value_of};

use host::records::Value;
use letters::Written;
use record::Called;

#[unsafe(no_mangle)]
pub extern "C" fn senna_check_record(bytes: &[u8]) -> u8
    ensures { result ≡ check bytes.now }
{
    host::records::senna_check_record(bytes)
}

#[unsafe(no_mangle)]
pub extern "C" fn senna_blank_record(bytes: &mut [u8]) -> u8
    ensures value { result ≡ blank_number bytes.old }
    ensures bytes_after { bytes.new ≡ blank_after bytes.old }
{
    host::records::senna_blank_record(bytes)
}

#[unsafe(no_mangle)]
pub extern "C" fn senna_coordinator_begin(
    bytes: &mut [u8],
    settings: &mut [u8],
    me: u8,
    live: u16,
    distances: &[u8],
    timestamp: u32,
    day: u32,
    minute: u16,
) -> Called
    ensures value { result ≡ begun_with distances.now bytes.old settings.old me
        (begin (begin_with live distances.now timestamp) day minute) }
    ensures bytes_after { bytes.new ≡ bytes_begun distances.now bytes.old settings.old me
        (begin (begin_with live distances.now timestamp) day minute) }
    ensures settings_after { settings.new ≡ settings_begun distances.now bytes.old settings.old me
        (begin (begin_with live distances.now timestamp) day minute) }
{
    host::records::senna_coordinator_begin(
        bytes, settings, me, live, distances, timestamp, day, minute,
    )
}

#[unsafe(no_mangle)]
pub extern "C" fn senna_coordinator_batch(
    bytes: &mut [u8],
    settings: &mut [u8],
    me: u8,
    live: u16,
    distances: &[u8],
    timestamp: u32,
    day: u32,
    minute: u16,
    list: &[u8],
) -> Called
    ensures value { result ≡ begun_with distances.now bytes.old settings.old me
        (batch (begin_with live distances.now timestamp) day minute list.now) }
    ensures bytes_after { bytes.new ≡ bytes_begun distances.now bytes.old settings.old me
        (batch (begin_with live distances.now timestamp) day minute list.now) }
    ensures settings_after { settings.new ≡ settings_begun distances.now bytes.old settings.old me
        (batch (begin_with live distances.now timestamp) day minute list.now) }
{
    host::records::senna_coordinator_batch(
        bytes, settings, me, live, distances, timestamp, day, minute, list,
    )
}

#[unsafe(no_mangle)]
pub extern "C" fn senna_coordinator_reselect(
    bytes: &mut [u8],
    me: u8,
    live: u16,
    distances: &[u8],
) -> Called
    ensures value { result ≡ answer_with distances.now (reselect_step me live distances.now) bytes.old }
    ensures bytes_after { bytes.new ≡ bytes_with distances.now (reselect_step me live distances.now) bytes.old }
{
    host::records::senna_coordinator_reselect(bytes, me, live, distances)
}

#[unsafe(no_mangle)]
pub extern "C" fn senna_coordinator_open_read(
    bytes: &mut [u8],
    settings: &[u8],
    me: u8,
    object: u8,
) -> Called
    ensures value { result ≡ front_told bytes.old settings.now me (edit (reads object)) }
    ensures bytes_after { bytes.new ≡ front_record bytes.old settings.now me (edit (reads object)) }
{
    host::records::senna_coordinator_open_read(bytes, settings, me, object)
}

#[unsafe(no_mangle)]
pub extern "C" fn senna_coordinator_open_write(
    bytes: &mut [u8],
    settings: &[u8],
    me: u8,
    object: u8,
) -> Called
    ensures value { result ≡ front_told bytes.old settings.now me (edit (writes object)) }
    ensures bytes_after { bytes.new ≡ front_record bytes.old settings.now me (edit (writes object)) }
{
    host::records::senna_coordinator_open_write(bytes, settings, me, object)
}

#[unsafe(no_mangle)]
pub extern "C" fn senna_coordinator_set_value(
    bytes: &mut [u8],
    settings: &[u8],
    me: u8,
    object: u8,
    value: i64,
) -> Called
    ensures value { result ≡ front_told bytes.old settings.now me (edit (values object (bits_of value))) }
    ensures bytes_after { bytes.new ≡ front_record bytes.old settings.now me (edit (values object (bits_of value))) }
{
    host::records::senna_coordinator_set_value(bytes, settings, me, object, value)
}

#[unsafe(no_mangle)]
pub extern "C" fn senna_coordinator_request_commit(
    bytes: &mut [u8],
    settings: &[u8],
    me: u8,
) -> Called
    ensures value { result ≡ front_told bytes.old settings.now me request }
    ensures bytes_after { bytes.new ≡ front_record bytes.old settings.now me request }
{
    host::records::senna_coordinator_request_commit(bytes, settings, me)
}

#[unsafe(no_mangle)]
pub extern "C" fn senna_coordinator_abort(bytes: &mut [u8], me: u8) -> Called
    ensures value { result ≡ called_of (λ (c : Coordinator). abort_of c me) bytes.old }
    ensures bytes_after { bytes.new ≡ record_after (λ (c : Coordinator). abort_of c me) bytes.old }
{
    host::records::senna_coordinator_abort(bytes, me)
}

#[unsafe(no_mangle)]
pub extern "C" fn senna_coordinator_receive(bytes: &mut [u8], me: u8, message: &[u8]) -> Called
    ensures value { result ≡ received_of me message.now bytes.old }
    ensures bytes_after { bytes.new ≡ record_after (λ (c : Coordinator). receive_of tree c me message.now) bytes.old }
{
    host::records::senna_coordinator_receive(bytes, me, message)
}

#[unsafe(no_mangle)]
pub extern "C" fn senna_coordinator_found(bytes: &mut [u8], me: u8, object: u8) -> Value
    ensures value { result ≡ value_of (called_of (λ (c : Coordinator). found_of tree c me object) bytes.old) }
    ensures bytes_after { bytes.new ≡ record_after (λ (c : Coordinator). found_of tree c me object) bytes.old }
{
    host::records::senna_coordinator_found(bytes, me, object)
}

#[unsafe(no_mangle)]
pub extern "C" fn senna_coordinator_due(
    bytes: &[u8],
    me: u8,
    node: u8,
    object: u8,
    out: &mut [u8],
) -> Written
    ensures value { result ≡ record_due bytes.now me node object (length out.old) }
    ensures out_after { out.new ≡ record_due_buffer bytes.now me node object out.old }
{
    host::records::senna_coordinator_due(bytes, me, node, object, out)
}

#[unsafe(no_mangle)]
pub extern "C" fn senna_coordinator_phase(bytes: &[u8]) -> u8
    ensures { result ≡ (shown bytes.now).phase }
{
    host::records::senna_coordinator_phase(bytes)
}

#[unsafe(no_mangle)]
pub extern "C" fn senna_coordinator_serial(bytes: &[u8]) -> u32
    ensures { result ≡ (shown bytes.now).serial }
{
    host::records::senna_coordinator_serial(bytes)
}

#[unsafe(no_mangle)]
pub extern "C" fn senna_coordinator_timestamp(bytes: &[u8]) -> u32
    ensures { result ≡ (shown bytes.now).timestamp }
{
    host::records::senna_coordinator_timestamp(bytes)
}

#[unsafe(no_mangle)]
pub extern "C" fn senna_coordinator_outcome(bytes: &[u8]) -> u8
    ensures { result ≡ (shown bytes.now).outcome }
{
    host::records::senna_coordinator_outcome(bytes)
}

#[unsafe(no_mangle)]
pub extern "C" fn senna_coordinator_participants(bytes: &[u8]) -> u16
    ensures { result ≡ (shown bytes.now).participants }
{
    host::records::senna_coordinator_participants(bytes)
}

#[unsafe(no_mangle)]
pub extern "C" fn senna_coordinator_count(bytes: &[u8]) -> usize
    ensures { result ≡ (shown bytes.now).count }
{
    host::records::senna_coordinator_count(bytes)
}

#[unsafe(no_mangle)]
pub extern "C" fn senna_coordinator_object(bytes: &[u8], i: u8) -> u8
    ensures { result ≡ (get_or (shown bytes.now).objects i no_object).object }
{
    host::records::senna_coordinator_object(bytes, i)
}

#[unsafe(no_mangle)]
pub extern "C" fn senna_coordinator_mode(bytes: &[u8], i: u8) -> u8
    ensures { result ≡ (get_or (shown bytes.now).objects i no_object).mode }
{
    host::records::senna_coordinator_mode(bytes, i)
}

#[unsafe(no_mangle)]
pub extern "C" fn senna_coordinator_is_ready(bytes: &[u8], i: u8) -> u8
    ensures { result ≡ cond (ready tree (get_or (shown bytes.now).objects i no_object)) 1 0 }
{
    host::records::senna_coordinator_is_ready(bytes, i)
}

#[unsafe(no_mangle)]
pub extern "C" fn senna_coordinator_waiting(bytes: &[u8], settings: &[u8], class: u8) -> Called
    ensures { result ≡ waiting_of bytes.now settings.now class }
{
    host::records::senna_coordinator_waiting(bytes, settings, class)
}
