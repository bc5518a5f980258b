// Messages for C: checked, and written one kind at a time. Each function states the same equation as what it wraps.
ghost use Rattle.std.specs.Prelude.{◌≡◌, length};
ghost use Rattle.wire.specs.Decode.{check_of};
ghost use Rattle.letters.specs.Write.{written_of, buffer_after, fetch_of, copy_of, ask_of, vote_of, outcome_of, done_of, yield_of};

use letters::Written;
use numbers::{MOST_OPEN, NODES};
use wire::Entry;

// Up to eight entries: the first count. A count above 8 is one of more entries than a message has.
#[repr(C)]
#[derive(Clone, Copy)]
pub struct Entries {
    pub entry: [Entry; MOST_OPEN],
    pub count: u8,
}

// A serial for each owner; 0 where it is no rival.
#[repr(C)]
#[derive(Clone, Copy)]
pub struct Serials {
    pub serial: [u32; NODES],
}

// The number of a received message. Ruled out: 3 for a message of 14 bytes; 0 for one with bytes left over.
pub fn senna_check_message(message: &[u8]) -> u8
    ensures { result ≡ check_of message.now }
{
    numbers::number(wire::check(message))
}

// The writers. Each rules out, among others: a buffer altered on a refusal; bytes behind the message altered.
pub fn senna_write_fetch(
    out: &mut [u8],
    to: u8,
    owner: u8,
    serial: u32,
    stamp: u32,
    object: u8,
    mode: u8,
) -> Written
    ensures value { result ≡ written_of (length out.old) (fetch_of to owner serial stamp object mode) }
    ensures out_after { out.new ≡ buffer_after (fetch_of to owner serial stamp object mode) out.old }
{
    letters::write_fetch(out, to, owner, serial, stamp, object, mode)
}

pub fn senna_write_copy(
    out: &mut [u8],
    from: u8,
    owner: u8,
    serial: u32,
    stamp: u32,
    entry: Entry,
) -> Written
    ensures value { result ≡ written_of (length out.old) (copy_of from owner serial stamp entry) }
    ensures out_after { out.new ≡ buffer_after (copy_of from owner serial stamp entry) out.old }
{
    letters::write_copy(out, from, owner, serial, stamp, entry)
}

pub fn senna_write_ask(
    out: &mut [u8],
    to: u8,
    owner: u8,
    serial: u32,
    stamp: u32,
    entries: Entries,
) -> Written
    ensures value { result ≡ written_of (length out.old) (ask_of to owner serial stamp entries.entry entries.count) }
    ensures out_after { out.new ≡ buffer_after (ask_of to owner serial stamp entries.entry entries.count) out.old }
{
    let list = entries.entry;
    letters::write_ask(
        out,
        to,
        owner,
        serial,
        stamp,
        list,
        usize::from(entries.count),
    )
}

pub fn senna_write_vote(
    out: &mut [u8],
    from: u8,
    owner: u8,
    serial: u32,
    stamp: u32,
    rivals: Serials,
    word: u8,
) -> Written
    ensures value { result ≡ written_of (length out.old) (vote_of from owner serial stamp rivals.serial word) }
    ensures out_after { out.new ≡ buffer_after (vote_of from owner serial stamp rivals.serial word) out.old }
{
    let serials = rivals.serial;
    letters::write_vote(out, from, owner, serial, stamp, serials, word)
}

pub fn senna_write_outcome(
    out: &mut [u8],
    to: u8,
    owner: u8,
    serial: u32,
    stamp: u32,
    entries: Entries,
    word: u8,
) -> Written
    ensures value { result ≡ written_of (length out.old) (outcome_of to owner serial stamp entries.entry entries.count word) }
    ensures out_after { out.new ≡ buffer_after (outcome_of to owner serial stamp entries.entry entries.count word) out.old }
{
    let list = entries.entry;
    letters::write_outcome(
        out,
        to,
        owner,
        serial,
        stamp,
        list,
        usize::from(entries.count),
        word,
    )
}

pub fn senna_write_done(out: &mut [u8], from: u8, owner: u8, serial: u32, stamp: u32) -> Written
    ensures value { result ≡ written_of (length out.old) (done_of from owner serial stamp) }
    ensures out_after { out.new ≡ buffer_after (done_of from owner serial stamp) out.old }
{
    letters::write_done(out, from, owner, serial, stamp)
}

pub fn senna_write_yield(
    out: &mut [u8],
    owner: u8,
    serial: u32,
    stamp: u32,
    rival: u8,
    rival_serial: u32,
) -> Written
    ensures value { result ≡ written_of (length out.old) (yield_of rival owner serial stamp rival_serial) }
    ensures out_after { out.new ≡ buffer_after (yield_of rival owner serial stamp rival_serial) out.old }
{
    letters::write_yield(out, owner, serial, stamp, rival, rival_serial)
}
