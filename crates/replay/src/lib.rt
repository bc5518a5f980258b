// Replay's last values (document 01: the one-by-one running) while a scenario runs, in bounded memory: a sheet of numbers that the caller lends.
// Each function takes one thing that an event may tell; the caller tells them in the order of the events. Crate history proves that the sheet's last
// values are then those of the definition.
#![tactic(auto)]

ghost use Rattle.std.specs.Prelude.{◌≡◌, ◌≤◌, ◌<◌, length, set, get_or};
ghost use Rattle.numbers.specs.Sizes.{objects};
ghost use Rattle.replay.specs.Digest.{next, first_yes, takes};
ghost use Rattle.replay.specs.Sheet.{sheet_number, owner_number, object_number, zeroed, blank_after, with_begun, begun_after, opened_after};
ghost use Rattle.replay.specs.Sheet.{valued_after, with_place, with_put, put_after, with_taken, all_taken, committed_after, value_of};

use numbers::{NODES, OBJECTS, refuse};

// Where each table starts: by owner its serial and its place, by object the place and the value of its last writer, and the owners' rows.
const COUNT: usize = 0;

const SERIALS: usize = 1;

const PLACES: usize = SERIALS + NODES;

const LAST_PLACES: usize = PLACES + NODES;

const LAST_VALUES: usize = LAST_PLACES + OBJECTS;

const ROWS: usize = LAST_VALUES + OBJECTS;

// A row: the marks of what is written, then the new values.
const ROW: usize = OBJECTS + OBJECTS;

// How many numbers a sheet has.
pub const SIZE: usize = ROWS + ROW * NODES;

// One more; the largest number stays.
#[tactic(auto, unfolding(crate::specs::Digest::next))]
fn next(n: u64) -> u64
    ensures { result ≡ next n }
{
    n.saturating_add(1)
}

// The number in a cell; 0 where there is none.
fn cell(sheet: &[u64], at: usize) -> u64
    ensures { result ≡ get_or sheet.now at 0 }
{
    sheet.get(at).copied().unwrap_or(0)
}

// Stores a number in a cell; nothing where there is none.
fn store(sheet: &mut [u64], at: usize, n: u64)
    ensures { sheet.new ≡ set sheet.old at n }
{
    if at < sheet.len() {
        sheet[at] = n;
    }
}

// Stores n zeros from a cell on.
fn zero(sheet: &mut [u64], at: usize, n: usize)
    requires { (at ≤ 131071) × (n ≤ 65535) }
    ensures { sheet.new ≡ zeroed n sheet.old at }
{
    for i in at..at + n {
        store(sheet, i, 0);
    }
}

// The numbers of a slice of this length with an owner, and with an object.
#[tactic(auto, unfolding(crate::specs::Sheet::sheet_number))]
fn sheet_number(long: usize) -> u8
    ensures { result ≡ sheet_number long }
{
    refuse(numbers::LENGTH, long != SIZE, 0)
}

#[tactic(auto, unfolding(crate::specs::Sheet::owner_number))]
fn owner_number(long: usize, owner: u8) -> u8
    ensures { result ≡ owner_number long owner }
{
    let strange = refuse(numbers::STRANGER, NODES <= usize::from(owner), 0);
    refuse(numbers::LENGTH, long != SIZE, strange)
}

#[tactic(auto, unfolding(crate::specs::Sheet::object_number))]
fn object_number(long: usize, owner: u8, object: u8) -> u8
    ensures { result ≡ object_number long owner object }
{
    let none = refuse(numbers::NO_SUCH_OBJECT, OBJECTS <= usize::from(object), 0);
    let strange = refuse(numbers::STRANGER, NODES <= usize::from(owner), none);
    refuse(numbers::LENGTH, long != SIZE, strange)
}

// Makes a sheet of which nothing was told: all zeros. Ruled out: a value of the last scenario left; a number written where the length is another.
pub fn blank(sheet: &mut [u64]) -> u8
    ensures number { result ≡ sheet_number (length sheet.old) }
    ensures sheet { sheet.new ≡ blank_after sheet.old }
{
    let number = sheet_number(sheet.len());
    if number != 0 {
        return number;
    }
    zero(sheet, 0, SIZE);
    0
}

// The next serial of an owner, with nothing else told of it.
#[tactic(auto, unfolding(crate::specs::Sheet::with_begun))]
fn begin(sheet: &mut [u64], owner: u8)
    ensures { sheet.new ≡ with_begun sheet.old owner }
{
    let o = usize::from(owner);
    let serial = next(cell(sheet, SERIALS + o));
    store(sheet, SERIALS + o, serial);
    store(sheet, PLACES + o, 0);
    zero(sheet, ROWS + ROW * o, ROW);
}

// An accepted begin. Ruled out: the place of the transaction before kept; its marks kept, so that the next one seems to write what it wrote.
#[tactic(auto, unfolding(crate::specs::Sheet::begun_after))]
pub fn begun(sheet: &mut [u64], owner: u8) -> u8
    ensures number { result ≡ owner_number (length sheet.old) owner }
    ensures sheet { sheet.new ≡ begun_after sheet.old owner }
{
    let number = owner_number(sheet.len(), owner);
    if number != 0 {
        return number;
    }
    begin(sheet, owner);
    0
}

// An accepted open, to read (mode 0) or to write (mode 1). Ruled out: an object that is read marked as written; another owner's mark set.
#[tactic(auto, unfolding(crate::specs::Sheet::opened_after))]
pub fn opened(sheet: &mut [u64], owner: u8, object: u8, mode: u8) -> u8
    ensures number { result ≡ object_number (length sheet.old) owner object }
    ensures sheet { sheet.new ≡ opened_after sheet.old owner object mode }
{
    let number = object_number(sheet.len(), owner, object);
    if number != 0 {
        return number;
    }
    store(
        sheet,
        ROWS + ROW * usize::from(owner) + usize::from(object),
        u64::from(mode),
    );
    0
}

// An accepted set of a new value. Ruled out: the first of two counts; it is stored as the object's last value before the commit.
#[tactic(auto, unfolding(crate::specs::Sheet::valued_after))]
pub fn valued(sheet: &mut [u64], owner: u8, object: u8, value: u64) -> u8
    ensures number { result ≡ object_number (length sheet.old) owner object }
    ensures sheet { sheet.new ≡ valued_after sheet.old owner object value }
{
    let number = object_number(sheet.len(), owner, object);
    if number != 0 {
        return number;
    }
    store(
        sheet,
        ROWS + ROW * usize::from(owner) + OBJECTS + usize::from(object),
        value,
    );
    0
}

// Whether a message is the root's first yes to the transaction with this serial, whose place is this.
#[tactic(auto, unfolding(crate::specs::Digest::first_yes))]
fn first_yes(serial: u64, place: u64, message: &[u8]) -> bool
    ensures { result ≡ first_yes serial place message.now }
{
    let root = wire::word(message) == 1 && wire::from(message) == 0;
    let fresh = u64::from(wire::serial(message)) == serial && place == 0;
    wire::check(message).is_ok() && wire::kind(message) == wire::VOTE && root && fresh
}

// The owner gets the next place.
#[tactic(auto, unfolding(crate::specs::Sheet::with_place))]
fn give_place(sheet: &mut [u64], owner: u8)
    ensures { sheet.new ≡ with_place sheet.old owner }
{
    let place = next(cell(sheet, COUNT));
    store(sheet, COUNT, place);
    store(sheet, PLACES + usize::from(owner), place);
}

// A message that was put into the pool; one that is not well formed tells nothing.
// Ruled out: a second yes of the root takes a second place; a yes of another node gives a place; a late yes to an earlier transaction does.
pub fn put(sheet: &mut [u64], message: &[u8]) -> u8
    ensures number { result ≡ sheet_number (length sheet.old) }
    ensures sheet { sheet.new ≡ put_after sheet.old message.now }
{
    let number = sheet_number(sheet.len());
    if number != 0 {
        return number;
    }
    let owner = wire::owner(message);
    let o = usize::from(owner);
    if first_yes(cell(sheet, SERIALS + o), cell(sheet, PLACES + o), message) {
        give_place(sheet, owner);
    }
    0
}

// Whether what is written takes a new value: no later place of the log wrote it.
#[tactic(auto, unfolding(crate::specs::Digest::takes))]
fn is_taken(mark: u64, place: u64, last: u64) -> bool
    ensures { result ≡ takes mark place last }
{
    mark == 1 && last < place
}

// An object takes the owner's place and new value, if the owner writes it and no later place of the log did.
fn take(sheet: &mut [u64], o: usize, t: usize)
    requires { (o < 256) × (t < 256) }
    ensures { sheet.new ≡ with_taken sheet.old o t }
{
    let row = ROWS + ROW * o;
    let place = cell(sheet, PLACES + o);
    if is_taken(cell(sheet, row + t), place, cell(sheet, LAST_PLACES + t)) {
        let value = cell(sheet, row + OBJECTS + t);
        store(sheet, LAST_PLACES + t, place);
        store(sheet, LAST_VALUES + t, value);
    }
}

// Every object does.
fn take_all(sheet: &mut [u64], o: usize)
    requires { o < 256 }
    ensures { sheet.new ≡ all_taken objects sheet.old o 0 }
{
    for t in 0..OBJECTS {
        take(sheet, o, t);
    }
}

// A delivery that answered 'committed' for the owner's present transaction.
// Ruled out: a writer that decides later but stands earlier in the log overwrites; an object that is only read takes a value.
#[tactic(auto, unfolding(crate::specs::Sheet::committed_after))]
pub fn committed(sheet: &mut [u64], owner: u8) -> u8
    ensures number { result ≡ owner_number (length sheet.old) owner }
    ensures sheet { sheet.new ≡ committed_after sheet.old owner }
{
    let number = owner_number(sheet.len(), owner);
    if number != 0 {
        return number;
    }
    take_all(sheet, usize::from(owner));
    0
}

// The last value of an object, 64 bits of a signed number; 0 for a slice of another length and for an object above 127.
// Ruled out: the place of its last writer; the value of the object beside it.
#[tactic(auto, unfolding(crate::specs::Sheet::value_of))]
pub fn value(sheet: &[u64], object: u8) -> u64
    ensures { result ≡ value_of sheet.now object }
{
    let t = usize::from(object);
    if sheet.len() == SIZE && t < OBJECTS {
        cell(sheet, LAST_VALUES + t)
    } else {
        0
    }
}
