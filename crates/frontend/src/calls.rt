// The host's calls over a node's record and settings: 1 and 2 of both first, with 1 of a list that is lent; then as the plan says.
ghost use Rattle.std.specs.Prelude.{◌≡◌, false, cond, []};
ghost use Rattle.numbers.specs.Numbers.{stranger, out_of_turn};
ghost use Rattle.numbers.specs.Outcome.{code_of, number_of};
ghost use Rattle.classes.specs.Weights.{overweight};
ghost use Rattle.coordinator.specs.System.{tree};
ghost use Rattle.coordinator.specs.Calls.{no_node};
ghost use Rattle.increments.specs.Deeds.{reads, writes, values};
ghost use Rattle.record.specs.Record.{record_of, check};
ghost use Rattle.record.specs.Call.{called};
ghost use Rattle.settings.specs.Settings.{settings_number};
ghost use Rattle.frontend.specs.Plan.{begin, batch, edit, request, load_classes, out_of_turn_after, front_told, front_record, front_settings};
ghost use Rattle.frontend.specs.Plan.{told_by, left_by, batch_here, request_by, lent_number};

use classes::MOST_CLASSES;
use coordinator::{BeginWith, IDLE};
use hours::LAST_MINUTE;
use numbers::{NODES_END, Refusal, either, first_refusal, lower, refuse};
use record::Called;
use record::look::phase;
use settings::{BATCH, CLASSES, KIND, OWN, SETTINGS, is_adding, is_closed, settle, tenths};

// A call that is refused, by its number. Ruled out: an answer beside a number.
pub(crate) fn refused(number: u8) -> Called
    ensures { result ≡ called number 0 }
{
    Called { number, answer: 0 }
}

// A call that is taken. Ruled out: a number other than 0; the answer left out.
pub(crate) fn taken(answer: u64) -> Called
    ensures { result ≡ called 0 answer }
{
    Called { number: 0, answer }
}

// Whether a record and its settings are lent whole: 1 another length of either, 2 either damaged.
pub(crate) fn check_lent(bytes: &[u8], settings: &[u8]) -> Result<(), Refusal>
    ensures { number_of result ≡ lent_number bytes.now settings.now }
{
    first_refusal(record::check(bytes), settings::check(settings))
}

// What a request answers that gives its transaction up: aborted.
const GIVEN_UP: u64 = 2;

// Begins a transaction of the host's own on a day, at a minute; answers the chosen read quorum. Ruled out: a begin at the end minute of the last window; a
// closed begin that takes a serial.
pub fn begin(
    bytes: &mut [u8],
    settings: &mut [u8],
    me: u8,
    w: BeginWith,
    day: u32,
    minute: u16,
) -> Called
    ensures value { result ≡ front_told bytes.old settings.old me (begin w day minute) }
    ensures bytes_after { bytes.new ≡ front_record bytes.old settings.old me (begin w day minute) }
    ensures settings_after { settings.new ≡ front_settings bytes.old settings.old me (begin w day minute) }
{
    let number = numbers::number(check_lent(bytes, settings));
    if number != 0 {
        return refused(number);
    }
    if LAST_MINUTE < minute {
        return refused(numbers::GARBLED);
    }
    if is_closed(settings, day, minute) {
        let own = numbers::number(record_calls::may_begin(bytes, me, w));
        return refused(refuse(own, own != 0, numbers::CLOSED));
    }
    let waits = tenths(bytes, settings);
    let r = Called::from(deeds::begin(bytes, me, w));
    if r.number == 0 {
        settle(settings, OWN, waits, [0; MOST_CLASSES]);
    }
    r
}

// What refuses a call that is out of turn, whatever else: 4 and 10 still precede 5.
pub(crate) fn late<T: Drop>(own: Result<T, Refusal>) -> Refusal
    ensures { code_of result ≡ out_of_turn_after (number_of own) }
{
    match own {
        Err(Refusal::Stranger) => Refusal::Stranger,
        Err(Refusal::Busy) => Refusal::Busy,
        _ => Refusal::OutOfTurn,
    }
}

// A batch that nothing but the record refuses: a transaction begins, and each class's tally is opened to write and given its grams.
fn begin_batch(bytes: &mut [u8], settings: &mut [u8], me: u8, w: BeginWith, list: &[u8]) -> Called
    requires { (check bytes.old ≡ 0) × ((settings_number settings.old ≡ 0) × (overweight list.now ≡ false)) }
    ensures value { result ≡ told_by (batch_here bytes.old settings.old me w list.now) }
    ensures bytes_after { bytes.new ≡ left_by (batch_here bytes.old settings.old me w list.now) bytes.old me }
    ensures settings_after { settings.new ≡ (batch_here bytes.old settings.old me w list.now).settings }
{
    let waits = tenths(bytes, settings);
    let r = Called::from(deeds::begin(bytes, me, w));
    if r.number == 0 {
        let sorted = classes::sort(&settings[CLASSES..KIND], waits, list);
        let count = classes::count(&settings[CLASSES..KIND]);
        let tallies = classes::tallies(&settings[CLASSES..KIND]);
        let grams = sorted.grams;
        let left = sorted.left;
        increments::add_all(bytes, me, count, tallies, grams);
        settle(settings, BATCH, waits, left);
    }
    r
}

// Books a batch of weights as one transaction that adds whole grams to every class's tally; answers the chosen read quorum. Ruled out: a batch kept as
// the host's own; a batch before any table that begins.
pub fn batch(
    bytes: &mut [u8],
    settings: &mut [u8],
    me: u8,
    w: BeginWith,
    day: u32,
    minute: u16,
    list: &[u8],
) -> Called
    ensures value { result ≡ front_told bytes.old settings.old me (batch w day minute list.now) }
    ensures bytes_after { bytes.new ≡ front_record bytes.old settings.old me (batch w day minute list.now) }
    ensures settings_after { settings.new ≡ front_settings bytes.old settings.old me (batch w day minute list.now) }
{
    let length = numbers::number(classes::check_batch(list));
    let number = lower(numbers::number(check_lent(bytes, settings)), length);
    if number != 0 {
        return refused(number);
    }
    if either(classes::is_overweight(list), LAST_MINUTE < minute) {
        return refused(numbers::GARBLED);
    }
    if classes::is_none(&settings[CLASSES..KIND]) {
        return refused(u8::from(late(record_calls::may_begin(bytes, me, w))));
    }
    if is_closed(settings, day, minute) {
        let ahead = numbers::number(record_calls::may_begin(bytes, me, w));
        return refused(refuse(ahead, ahead != 0, numbers::CLOSED));
    }
    begin_batch(bytes, settings, me, w, list)
}

// What refuses an open or a value call on a batch.
pub(crate) fn not_yours(me: u8) -> Refusal
    ensures { code_of result ≡ cond (no_node me) stranger out_of_turn }
{
    if NODES_END <= me {
        Refusal::Stranger
    } else {
        Refusal::OutOfTurn
    }
}

// Opens an object to read it. Ruled out: an object opened on a batch; a read opened as a write.
pub fn open_read(bytes: &mut [u8], settings: &[u8], me: u8, object: u8) -> Called
    ensures value { result ≡ front_told bytes.old settings.now me (edit (reads object)) }
    ensures bytes_after { bytes.new ≡ front_record bytes.old settings.now me (edit (reads object)) }
{
    let number = numbers::number(check_lent(bytes, settings));
    if number != 0 {
        return refused(number);
    }
    if is_adding(settings) {
        return refused(u8::from(not_yours(me)));
    }
    Called::from(deeds::open(bytes, me, object, 0))
}

// Opens an object to write it. Ruled out: an object opened on a batch; a ninth object taken.
pub fn open_write(bytes: &mut [u8], settings: &[u8], me: u8, object: u8) -> Called
    ensures value { result ≡ front_told bytes.old settings.now me (edit (writes object)) }
    ensures bytes_after { bytes.new ≡ front_record bytes.old settings.now me (edit (writes object)) }
{
    let number = numbers::number(check_lent(bytes, settings));
    if number != 0 {
        return refused(number);
    }
    if is_adding(settings) {
        return refused(u8::from(not_yours(me)));
    }
    Called::from(deeds::open(bytes, me, object, 1))
}

// Gives a written object its new value. Ruled out: a batch's grams overwritten; 6 on a batch.
pub fn set_value(bytes: &mut [u8], settings: &[u8], me: u8, object: u8, value: u64) -> Called
    ensures value { result ≡ front_told bytes.old settings.now me (edit (values object value)) }
    ensures bytes_after { bytes.new ≡ front_record bytes.old settings.now me (edit (values object value)) }
{
    let number = numbers::number(check_lent(bytes, settings));
    if number != 0 {
        return refused(number);
    }
    if is_adding(settings) {
        return refused(u8::from(not_yours(me)));
    }
    Called::from(deeds::set_value(bytes, me, object, value))
}

// Votes asked for on a record and settings whose checks passed.
fn ask(bytes: &mut [u8], adding: bool, me: u8) -> Called
    requires { check bytes.old ≡ 0 }
    ensures value { result ≡ told_by (request_by adding tree (record_of bytes.old) [] me) }
    ensures bytes_after { bytes.new ≡ left_by (request_by adding tree (record_of bytes.old) [] me) bytes.old me }
{
    if !adding {
        return Called::from(deeds::request_commit(bytes, me));
    }
    let number = numbers::number(deeds::may_request(bytes, me));
    if number != 0 {
        return refused(number);
    }
    if increments::any_past(bytes) {
        // A transaction that may be asked for votes may be given up.
        let _ = deeds::abort(bytes, me);
        return Called {
            number: numbers::USED_UP,
            answer: GIVEN_UP,
        };
    }
    increments::sum_all(bytes, me);
    Called::from(deeds::request_commit(bytes, me))
}

// Asks for votes; answers the participants. On a batch each tally's new value is what was found and the grams; where one is past the range, the number is 9,
// the answer 2 (aborted), and the transaction is given up. Ruled out: a sum that wraps; a batch that stays open with a value past the range.
pub fn request_commit(bytes: &mut [u8], settings: &[u8], me: u8) -> Called
    ensures value { result ≡ front_told bytes.old settings.now me request }
    ensures bytes_after { bytes.new ≡ front_record bytes.old settings.now me request }
{
    let number = numbers::number(check_lent(bytes, settings));
    if number != 0 {
        return refused(number);
    }
    let adding = is_adding(settings);
    ask(bytes, adding, me)
}

// Loads a table of classes in place of the one before; it leaves none waiting. Ruled out: a table loaded while a transaction is open; tenths that wait still.
pub fn load_classes(bytes: &[u8], settings: &mut [u8], me: u8, list: &[u8]) -> Called
    ensures value { result ≡ front_told bytes.now settings.old me (load_classes list.now) }
    ensures settings_after { settings.new ≡ front_settings bytes.now settings.old me (load_classes list.now) }
{
    let length = numbers::number(classes::check_length(list));
    let first = lower(numbers::number(check_lent(bytes, settings)), length);
    if first != 0 {
        return refused(first);
    }
    let table = numbers::number(classes::check_table(phase(bytes) != IDLE, list));
    let number = refuse(numbers::STRANGER, !(me < NODES_END), table);
    if number != 0 {
        return refused(number);
    }
    parts::lay(&mut settings[CLASSES..SETTINGS], list);
    taken(0)
}
