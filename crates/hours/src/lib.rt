// Packing hours: a table of weekly windows and closed dates, as it is lent and as a node keeps it in lent bytes.
#![tactic(auto)]

ghost use Rattle.std.specs.Prelude.{◌≡◌, ◌<◌, eqb, length};
ghost use Rattle.wire.specs.Formed.{every};
ghost use Rattle.hours.specs.Hours.{window_count, dates_place, date_count, windows, dates, window_ok, faulty, table_number, any_of, in_window, closed_by};
ghost use Rattle.numbers.specs.Outcome.{number_of};
ghost use Rattle.hours.specs.Kept.{kept_size, stored, kept_number, load_number, load_after, closed};

use numbers::Refusal;

// The bytes in which a node keeps its hours.
pub const KEPT: usize = 187;

const MOST_WINDOWS: usize = 14;

const MOST_DATES: usize = 32;

// The last minute of a week.
pub const LAST_MINUTE: u16 = 10079;

const WINDOW: usize = 4;

const DATE: usize = 4;

// How many windows there are, where the count of the dates stands, and how many dates there are.
fn window_count(list: &[u8]) -> usize
    ensures { (result ≡ window_count list.now) × (result < 256) }
{
    usize::from(octets::get_u8(list, 0))
}

fn dates_place(list: &[u8]) -> usize
    ensures { (result ≡ dates_place list.now) × (result < 1024) }
{
    1 + WINDOW * window_count(list)
}

fn date_count(list: &[u8]) -> usize
    ensures { (result ≡ date_count list.now) × (result < 256) }
{
    usize::from(octets::get_u8(list, dates_place(list)))
}

// Whether the window at a place is one.
fn window_ok(start: u16, end: u16) -> bool
    ensures { result ≡ window_ok (record { start = start; end = end }) }
{
    start <= LAST_MINUTE && end <= LAST_MINUTE + 1 && start < end
}

// Whether every window is one.
fn windows_ok(list: &[u8]) -> bool
    ensures { result ≡ every window_ok (windows list.now) }
{
    (0..window_count(list)).all(|i| {
        let at = 1 + WINDOW * i;
        window_ok(octets::get_u16(list, at), octets::get_u16(list, at + 2))
    })
}

// Whether some window has the minute.
fn has_minute(list: &[u8], minute: u16) -> bool
    ensures { result ≡ any_of (in_window minute) (windows list.now) }
{
    (0..window_count(list)).any(|i| {
        let at = 1 + WINDOW * i;
        octets::get_u16(list, at) <= minute && minute < octets::get_u16(list, at + 2)
    })
}

// Whether the day is a closed date.
fn has_date(list: &[u8], day: u32) -> bool
    ensures { result ≡ any_of (eqb day) (dates list.now) }
{
    let first = dates_place(list) + 1;
    (0..date_count(list)).any(|i| day == octets::get_u32(list, first + DATE * i))
}

// Whether a table is faulty, and whether it closes a minute of a day.
#[tactic(auto, unfolding(crate::specs::Hours::faulty))]
fn is_faulty(list: &[u8]) -> bool
    ensures { result ≡ faulty list.now }
{
    MOST_WINDOWS < window_count(list) || MOST_DATES < date_count(list) || !windows_ok(list)
}

#[tactic(auto, unfolding(crate::specs::Hours::closed_by))]
fn closes(list: &[u8], day: u32, minute: u16) -> bool
    ensures { result ≡ closed_by list.now day minute }
{
    has_date(list, day) || !has_minute(list, minute)
}

// Whether a list is a table of packing hours: refused for a length that its counts do not say, and where it is faulty. Ruled out: 'damaged' for a table
// that is too short; a window of no minutes taken.
#[tactic(auto, unfolding(crate::specs::Hours::table_number, crate::specs::Hours::table_refusals))]
pub fn check_table(list: &[u8]) -> Result<(), Refusal>
    ensures { number_of result ≡ table_number list.now }
{
    if list.len() != dates_place(list) + 1 + DATE * date_count(list) {
        return Err(Refusal::Length);
    }
    if is_faulty(list) {
        return Err(Refusal::Damaged);
    }
    Ok(())
}

// Whether bytes are hours as a node keeps them. Ruled out: 'damaged' for what stands behind the lists; a third kind of loaded taken.
#[tactic(auto, unfolding(crate::specs::Kept::kept_number))]
pub fn check(kept: &[u8]) -> Result<(), Refusal>
    ensures { number_of result ≡ kept_number kept.now }
{
    if kept.len() != KEPT {
        return Err(Refusal::Length);
    }
    if 1 < octets::get_u8(kept, 0) || is_faulty(&kept[1..]) {
        return Err(Refusal::Damaged);
    }
    Ok(())
}

// The stored form over the whole of the bytes: the mark that a table is loaded, then the table.
fn store(kept: &mut [u8], list: &[u8])
    requires { length kept.old ≡ kept_size }
    ensures { kept.new ≡ stored list.now }
{
    kept[0] = 1;
    parts::lay(&mut kept[1..], list);
}

// Loads a table in place of the one before; refused for another length of either, and for a faulty table. Ruled out: a faulty table that takes the
// old one's place; a table
// whose last date is lost.
#[tactic(auto, unfolding(crate::specs::Kept::load_number, crate::specs::Kept::load_after))]
pub fn load(kept: &mut [u8], list: &[u8]) -> Result<(), Refusal>
    ensures value { number_of result ≡ load_number kept.old list.now }
    ensures kept_after { kept.new ≡ load_after kept.old list.now }
{
    if kept.len() != KEPT {
        return Err(Refusal::Length);
    }
    check_table(list)?;
    store(kept, list);
    Ok(())
}

// Whether the minute of a day is closed; before a table is loaded none is. Ruled out: the end minute open; a closed date open where a window has the minute.
#[tactic(auto, unfolding(crate::specs::Kept::closed))]
pub fn is_closed(kept: &[u8], day: u32, minute: u16) -> bool
    ensures { result ≡ closed kept.now day minute }
{
    if octets::get_u8(kept, 0) == 0 {
        return false;
    }
    closes(&kept[1..], day, minute)
}
