// What stands in a slice at the places of a message's sections. What is not there reads as 0.
ghost use Rattle.std.specs.Prelude.{◌≡◌, ◌<◌, get_or};
ghost use Rattle.wire.specs.Decode.{entry_at, rival_at};
ghost use Rattle.view.specs.Views.{header_of, places_of, counts_in, entry_in, rival_in, word_in};

use crate::{Counts, Header, Places};
use wire::{Entry, Rival};

// The place of the first section's count, and how many bytes an entry and a rival have.
const ENTRIES: u16 = 12;

const ENTRY: u16 = 14;

const RIVAL: u16 = 5;

// A byte, where it is used as a number of 16 bits.
fn byte_at(s: &[u8], at: u16) -> u16
    ensures { (result ≡ get_or s.now at 0) × (result < 256) }
{
    u16::from(octets::get_u8(s, usize::from(at)))
}

// The header. Ruled out: two fields exchanged; a serial with its high end first.
pub fn header_of(s: &[u8]) -> Header
    ensures { result ≡ header_of s.now }
{
    Header {
        kind: wire::kind(s),
        from: wire::from(s),
        to: wire::to(s),
        owner: wire::owner(s),
        serial: wire::serial(s),
        stamp: wire::stamp(s),
    }
}

// Where the sections stand. Ruled out: a place that leaves out the section before it; the place of the items instead of their count's.
pub fn places_of(s: &[u8]) -> Places
    ensures { result ≡ places_of s.now }
{
    let entries = byte_at(s, ENTRIES);
    let rivals_at = ENTRIES + 1 + ENTRY * entries;
    let rivals = byte_at(s, rivals_at);
    Places {
        entries: ENTRIES,
        rivals: rivals_at,
        words: rivals_at + 1 + RIVAL * rivals,
    }
}

// How many items stand in the sections at these places. Ruled out: the number of bytes instead of items; another section's count.
pub fn counts_in(s: &[u8], entries: u16, rivals: u16, words: u16) -> Counts
    ensures { result ≡ counts_in s.now entries rivals words }
{
    Counts {
        entries: octets::get_u8(s, usize::from(entries)),
        rivals: octets::get_u8(s, usize::from(rivals)),
        words: octets::get_u8(s, usize::from(words)),
    }
}

// The entry and the rival that stand at a place.
fn entry_from(s: &[u8], at: usize) -> Entry
    requires { at < 131072 }
    ensures { result ≡ entry_at s.now at }
{
    Entry {
        object: octets::get_u8(s, at),
        mode: octets::get_u8(s, at + 1),
        version: octets::get_u32(s, at + 2),
        value: octets::get_u64(s, at + 6),
    }
}

fn rival_from(s: &[u8], at: usize) -> Rival
    requires { at < 131072 }
    ensures { result ≡ rival_at s.now at }
{
    Rival {
        owner: octets::get_u8(s, at),
        serial: octets::get_u32(s, at + 1),
    }
}

// The i-th entry and the i-th rival of the section at a place, and the word; zeros outside what is there.
// Ruled out: the next section's bytes read as an entry; the first rival given for every i; the words' count given for the word.
pub fn entry_in(s: &[u8], at: u16, i: u8) -> Entry
    ensures { result ≡ entry_in s.now at i }
{
    if i < octets::get_u8(s, usize::from(at)) {
        entry_from(s, usize::from(at) + 1 + wire::ENTRY * usize::from(i))
    } else {
        Entry {
            object: 0,
            mode: 0,
            version: 0,
            value: 0,
        }
    }
}

pub fn rival_in(s: &[u8], at: u16, i: u8) -> Rival
    ensures { result ≡ rival_in s.now at i }
{
    if i < octets::get_u8(s, usize::from(at)) {
        rival_from(s, usize::from(at) + 1 + wire::RIVAL * usize::from(i))
    } else {
        Rival {
            owner: 0,
            serial: 0,
        }
    }
}

pub fn word_in(s: &[u8], at: u16) -> u8
    ensures { result ≡ word_in s.now at }
{
    if 0 < octets::get_u8(s, usize::from(at)) {
        octets::get_u8(s, usize::from(at) + 1)
    } else {
        0
    }
}
