// A node's settings: bytes lent beside its record. Its packing hours, its table of classes, the kind of what it began last, and the tenths that wait.
#![tactic(auto)]

ghost use Rattle.std.specs.Prelude.{◌≡◌, ◌∷◌, ◌++◌, ◌+◌, ◌≤◌, length};
ghost use Rattle.std.proofs.lemmas.List.Edits.{sets};
ghost use Rattle.parts.specs.Parts.{part, splice};
ghost use Rattle.hours.specs.Kept.{closed};
ghost use Rattle.classes.specs.Classes.{most_classes};
ghost use Rattle.record.specs.Record.{record_of};
ghost use Rattle.numbers.specs.Outcome.{number_of};
ghost use Rattle.record.specs.Call.{told};
ghost use Rattle.settings.specs.Settings.{settings_size, hours_in, adds, tenths, below10, unsound, settings_number};
ghost use Rattle.settings.specs.Settings.{blank_number, blank_after, load_number, load_after, kind_of};

use classes::MOST_CLASSES;
use coordinator::{COMMITTED, FINISHING, IDLE};
use numbers::{Refusal, both, either, first_refusal};
use record::OUTCOME;
use record::look::phase;

// The bytes of a node's settings.
pub const SETTINGS: usize = 228;

// Where the classes, the kind, the tenths that waited and those left over begin.
pub const CLASSES: usize = 187;

pub const KIND: usize = 211;

const WAITED: usize = 212;

const LEFT: usize = 220;

// The kinds.
pub const OWN: u8 = 0;

pub const BATCH: u8 = 1;

// The eight bytes from a place on.
fn eight(bytes: &[u8], at: usize) -> [u8; MOST_CLASSES]
    requires { at + most_classes ≤ length bytes.now }
    ensures { result ≡ part most_classes at bytes.now }
{
    let mut list = [0; MOST_CLASSES];
    list.copy_from_slice(&bytes[at..at + MOST_CLASSES]);
    list
}

// Eight bytes put from a place on.
fn put_eight(bytes: &mut [u8], at: usize, list: [u8; MOST_CLASSES])
    requires { at + most_classes ≤ length bytes.old }
    ensures bytes_after { bytes.new ≡ sets bytes.old at list }
    ensures list_len { length list ≡ most_classes }
{
    bytes[at..at + MOST_CLASSES].copy_from_slice(&list);
}

// Whether numbers are below 10 each: they are looked at without a branch, which costs less than to stop at the first that is not.
fn are_tenths(list: &[u8]) -> bool
    ensures { result ≡ below10 list.now }
{
    let mut fine = true;
    for x in list {
        fine &= *x <= 9;
    }
    fine
}

// Whether eight tenths from a place on are below 10 each.
#[tactic(auto, unfolding(parts::specs::Parts::part))]
fn below_10(bytes: &[u8], at: usize) -> bool
    requires { at + most_classes ≤ length bytes.now }
    ensures { result ≡ below10 (part most_classes at bytes.now) }
{
    are_tenths(&bytes[at..at + MOST_CLASSES])
}

// Whether settings of their length are damaged.
#[tactic(auto, unfolding(crate::specs::Settings::unsound, parts::specs::Parts::part))]
fn is_unsound(settings: &[u8]) -> bool
    requires { length settings.now ≡ settings_size }
    ensures { result ≡ unsound settings.now }
{
    if hours::check(&settings[0..hours::KEPT]).is_err() {
        return true;
    }
    if !classes::is_sound(&settings[CLASSES..KIND]) || BATCH < octets::get_u8(settings, KIND) {
        return true;
    }
    !below_10(settings, WAITED) || !below_10(settings, LEFT)
}

// Whether bytes are settings. Ruled out: 'damaged' for a byte behind the hours' lists; ten tenths that wait taken.
#[tactic(auto, unfolding(crate::specs::Settings::settings_number))]
pub fn check(settings: &[u8]) -> Result<(), Refusal>
    ensures { number_of result ≡ settings_number settings.now }
{
    if settings.len() != SETTINGS {
        return Err(Refusal::Length);
    }
    if is_unsound(settings) {
        return Err(Refusal::Damaged);
    }
    Ok(())
}

// Makes settings blank: nothing is loaded. Ruled out: a byte of a buffer of another length altered; a table kept.
#[tactic(auto, unfolding(crate::specs::Settings::blank_number, crate::specs::Settings::blank_after))]
pub fn blank(settings: &mut [u8]) -> Result<(), Refusal>
    ensures value { number_of result ≡ blank_number settings.old }
    ensures settings_after { settings.new ≡ blank_after settings.old }
{
    if settings.len() != SETTINGS {
        return Err(Refusal::Length);
    }
    parts::zero(settings);
    Ok(())
}

// Loads a table of packing hours in place of the one before. Ruled out: a faulty table that takes the old one's place; 2 for a table that is too short.
#[tactic(auto, using(crate::proofs::Sound::loads), unfolding(crate::specs::Settings::load_number, crate::specs::Settings::load_after))]
pub fn load_hours(settings: &mut [u8], list: &[u8]) -> Result<(), Refusal>
    ensures value { number_of result ≡ load_number settings.old list.now }
    ensures settings_after { settings.new ≡ load_after settings.old list.now }
{
    first_refusal(check(settings), hours::check_table(list))?;
    hours::load(&mut settings[0..hours::KEPT], list)
}

// Whether the hours are closed. Ruled out: closed before any table; the end minute open.
// The condition is a plain fact of settings that were checked; only the crates that work on them use it, and each proves it.
pub fn is_closed(settings: &[u8], day: u32, minute: u16) -> bool
    requires { length settings.now ≡ settings_size }
    ensures { result ≡ closed (hours_in settings.now) day minute }
{
    hours::is_closed(&settings[0..hours::KEPT], day, minute)
}

// Whether the transaction begun last is one that adds. Ruled out: true for blank settings; false for a batch.
pub fn is_adding(settings: &[u8]) -> bool
    ensures { result ≡ adds settings.now }
{
    octets::get_u8(settings, KIND) != OWN
}

// The tenths that wait. Ruled out: those that a batch leaves over before it is committed; those that waited before a batch that is.
// The condition is a plain fact of settings that were checked; only the crates that work on them use it, and each proves it.
pub fn tenths(bytes: &[u8], settings: &[u8]) -> [u8; MOST_CLASSES]
    requires { length settings.now ≡ settings_size }
    ensures { result ≡ tenths (record_of bytes.now) settings.now }
{
    let at = phase(bytes);
    let committed = octets::get_u8(bytes, OUTCOME) == COMMITTED;
    let decided = both(committed, either(at == IDLE, at == FINISHING));
    if both(is_adding(settings), decided) {
        return eight(settings, LEFT);
    }
    eight(settings, WAITED)
}

// A transaction begins: its kind, the tenths that wait, and those that it will leave over. Ruled out: a table altered; the two in each other's place.
// The condition is a plain fact of settings that were checked; only the crates that work on them use it, and each proves it.
pub fn settle(settings: &mut [u8], kind: u8, waits: [u8; MOST_CLASSES], left: [u8; MOST_CLASSES])
    requires { length settings.old ≡ settings_size }
    ensures { settings.new ≡ splice 17 211 (kind ∷ (waits ++ left)) settings.old }
{
    octets::put_u8(settings, KIND, kind);
    put_eight(settings, WAITED, waits);
    put_eight(settings, LEFT, left);
}

// The kind of the transaction begun last: 0 the host's own, 1 a batch. Ruled out: 1 after classes were loaded; a kind of damaged settings.
#[tactic(auto, unfolding(crate::specs::Settings::kind_of))]
pub fn kind(settings: &[u8]) -> Result<u64, Refusal>
    ensures { told result ≡ kind_of settings.now }
{
    check(settings)?;
    Ok(u64::from(octets::get_u8(settings, KIND)))
}
