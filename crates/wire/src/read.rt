// What the bytes of a message say, read in place. What is not there reads as 0.
ghost use Rattle.std.specs.Prelude.{◌≡◌, cond, ◌<◌, ltb, get_or};
ghost use Rattle.wire.specs.Decode.{kind_of, from_of, to_of, owner_of, serial_of, stamp_of};
ghost use Rattle.wire.specs.Decode.{entry_count, rival_count, rivals_place, word_count, words_place, entry_at, rival_at};
ghost use Rattle.wire.specs.Items.{entry_of, rival_of, word_of};
ghost use Rattle.wire.specs.Headed.{head_of};

use crate::{ENTRY, Entry, HEADER, Head, RIVAL, Rival};

// The header. Each field rules out, among others: its neighbour's bytes; its bytes high end first; 0 for it in a message of 15 bytes.
pub fn kind(s: &[u8]) -> u8
    ensures { result ≡ kind_of s.now }
{
    octets::get_u8(s, 0)
}

pub fn from(s: &[u8]) -> u8
    ensures { result ≡ from_of s.now }
{
    octets::get_u8(s, 1)
}

pub fn to(s: &[u8]) -> u8
    ensures { result ≡ to_of s.now }
{
    octets::get_u8(s, 2)
}

pub fn owner(s: &[u8]) -> u8
    ensures { result ≡ owner_of s.now }
{
    octets::get_u8(s, 3)
}

pub fn serial(s: &[u8]) -> u32
    ensures { result ≡ serial_of s.now }
{
    octets::get_u32(s, 4)
}

pub fn stamp(s: &[u8]) -> u32
    ensures { result ≡ stamp_of s.now }
{
    octets::get_u32(s, 8)
}

// The header as one value.
pub(crate) fn head(s: &[u8]) -> Head
    ensures { result ≡ head_of s.now }
{
    Head {
        kind: kind(s),
        from: from(s),
        to: to(s),
        owner: owner(s),
        serial: serial(s),
        stamp: stamp(s),
    }
}

// A byte as an index or a count.
pub(crate) fn count_at(s: &[u8], at: usize) -> usize
    ensures { (result ≡ get_or s.now at 0) × (result < 256) }
{
    usize::from(octets::get_u8(s, at))
}

// How many entries, rivals and words there are. Each rules out, among others: the number of bytes instead of items; another section's count.
pub fn entries(s: &[u8]) -> usize
    ensures { (result ≡ entry_count s.now) × (result < 256) }
{
    count_at(s, HEADER)
}

pub fn rivals(s: &[u8]) -> usize
    ensures { (result ≡ rival_count s.now) × (result < 256) }
{
    count_at(s, HEADER + 1 + ENTRY * entries(s))
}

fn words(s: &[u8]) -> usize
    ensures { (result ≡ word_count s.now) × (result < 256) }
{
    count_at(s, rivals_place(s) + RIVAL * rivals(s))
}

// Where the rivals and the words start.
fn rivals_place(s: &[u8]) -> usize
    ensures { (result ≡ rivals_place s.now) × (result < 4096) }
{
    HEADER + 1 + ENTRY * entries(s) + 1
}

fn words_place(s: &[u8]) -> usize
    ensures { (result ≡ words_place s.now) × (result < 8192) }
{
    rivals_place(s) + RIVAL * rivals(s) + 1
}

// The entry and the rival at a place.
pub(crate) fn entry_at(s: &[u8], at: usize) -> Entry
    requires { at < 8192 }
    ensures { result ≡ entry_at s.now at }
{
    Entry {
        object: octets::get_u8(s, at),
        mode: octets::get_u8(s, at + 1),
        version: octets::get_u32(s, at + 2),
        value: octets::get_u64(s, at + 6),
    }
}

pub(crate) fn rival_at(s: &[u8], at: usize) -> Rival
    requires { at < 8192 }
    ensures { result ≡ rival_at s.now at }
{
    Rival {
        owner: octets::get_u8(s, at),
        serial: octets::get_u32(s, at + 1),
    }
}

// The i-th entry, the i-th rival and the word; zeros outside what is there.
// Ruled out: the next section's bytes read as an entry; the first rival given for every i; the count of words given for the word.
pub fn nth_entry(s: &[u8], i: usize) -> Entry
    ensures { result ≡ entry_of s.now i }
{
    if i < entries(s) {
        entry_at(s, HEADER + 1 + ENTRY * i)
    } else {
        Entry {
            object: 0,
            mode: 0,
            version: 0,
            value: 0,
        }
    }
}

pub fn nth_rival(s: &[u8], i: usize) -> Rival
    ensures { result ≡ rival_of s.now i }
{
    if i < rivals(s) {
        rival_at(s, rivals_place(s) + RIVAL * i)
    } else {
        Rival {
            owner: 0,
            serial: 0,
        }
    }
}

pub fn word(s: &[u8]) -> u8
    ensures { result ≡ word_of s.now }
{
    word_at(s, words_place(s), words(s))
}

// The first of w words from a place on.
pub(crate) fn word_at(s: &[u8], at: usize, w: usize) -> u8
    ensures { result ≡ cond (ltb 0 w) (get_or s.now at 0) 0 }
{
    if 0 < w { octets::get_u8(s, at) } else { 0 }
}
