// What a record says, for a host that resumes from kept bytes. Bytes that are no record read as a blank one: zeros.
ghost use Rattle.std.specs.Prelude.{◌≡◌, get_or};
ghost use Rattle.coordinator.specs.System.{tree};
ghost use Rattle.coordinator.specs.State.{no_object, ready};
ghost use Rattle.record.specs.Record.{shown};

use crate::load::read;
use crate::verify::check;
use coordinator::{Coordinator, Object};

// The record, or a blank one.
#[tactic(auto, unfolding(crate::specs::Record::shown))]
fn shown(bytes: &[u8]) -> Coordinator
    ensures { result ≡ shown bytes.now }
{
    if check(bytes).is_ok() {
        read(bytes)
    } else {
        coordinator::blank()
    }
}

// Each accessor rules out, among others: the field beside it; a damaged record's own bytes.
pub fn phase(bytes: &[u8]) -> u8
    ensures { result ≡ (shown bytes.now).phase }
{
    let c = shown(bytes);
    c.phase
}

pub fn serial(bytes: &[u8]) -> u32
    ensures { result ≡ (shown bytes.now).serial }
{
    let c = shown(bytes);
    c.serial
}

pub fn timestamp(bytes: &[u8]) -> u32
    ensures { result ≡ (shown bytes.now).timestamp }
{
    let c = shown(bytes);
    c.timestamp
}

pub fn outcome(bytes: &[u8]) -> u8
    ensures { result ≡ (shown bytes.now).outcome }
{
    let c = shown(bytes);
    c.outcome
}

pub fn participants(bytes: &[u8]) -> u16
    ensures { result ≡ (shown bytes.now).participants }
{
    let c = shown(bytes);
    c.participants
}

pub fn count(bytes: &[u8]) -> usize
    ensures { result ≡ (shown bytes.now).count }
{
    let c = shown(bytes);
    c.count
}

// The i-th opened object; a blank one where there is none.
fn nth(bytes: &[u8], i: u8) -> Object
    ensures { result ≡ get_or (shown bytes.now).objects i no_object }
{
    let c = shown(bytes);
    let objects = c.objects;
    coordinator::at_index(objects, usize::from(i))
}

// Its number, its mode and whether it is ready. Each rules out, among others: the object opened after it; an answer other than 0 past the count.
pub fn object(bytes: &[u8], i: u8) -> u8
    ensures { result ≡ (get_or (shown bytes.now).objects i no_object).object }
{
    let x = nth(bytes, i);
    x.object
}

pub fn mode(bytes: &[u8], i: u8) -> u8
    ensures { result ≡ (get_or (shown bytes.now).objects i no_object).mode }
{
    let x = nth(bytes, i);
    x.mode
}

pub fn is_ready(bytes: &[u8], i: u8) -> bool
    ensures { result ≡ ready tree (get_or (shown bytes.now).objects i no_object) }
{
    coordinator::is_ready(nth(bytes, i))
}
