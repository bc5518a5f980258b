// The message that a step names and the message that it put, as text; and replay told of them.
ghost use Rattle.std.specs.Prelude.{◌≡◌};
ghost use Rattle.report.specs.Page.{page, inks};
ghost use Rattle.pool.specs.Pool.{count};
ghost use Rattle.results.specs.Told.{there, seen, message_line, owner_seen, sheet_put, named_texts, taken_out, put_place, sheet_told};
ghost use Rattle.results.specs.Told.{puts_text, put_by, sheet_by};

use buffers::Answer;
use numbers::both;
use orders::{Kind, Order};

const COMMITTED: u64 = coordinator::COMMITTED as u64;

// No message waits there.
const NOWHERE: u8 = 255;

// How many messages wait. Ruled out: one more; the length of the first.
pub fn count(pool: &[u8]) -> u8
    ensures { result ≡ count pool.now }
{
    octets::get_u8(pool, 0)
}

// Whether a message waits at a place.
#[tactic(auto, unfolding(crate::specs::Told::there))]
fn there(pool: &[u8], k: u8) -> bool
    ensures { result ≡ there pool.now k }
{
    pool::check(pool).is_ok() && k < count(pool)
}

// The message at a place through its fields, as a line with a label.
fn shown(out: &mut [u8], at: usize, label: &[u8], pool: &[u8], k: u8) -> usize
    ensures { page out.new result ≡ inks (page out.old at) (message_line label.now (seen pool.now k)) }
{
    if !there(pool, k) {
        return at;
    }
    let start = pool::place(k);
    let end = start + pool::length(pool, k);
    let a = report::text(out, at, label);
    let b = report::message(out, a, &pool[start..end]);
    report::text(out, b, b"\n")
}

// Its owner. Ruled out: its receiver; the owner of another message.
pub fn owner_of(pool: &[u8], k: u8) -> u8
    ensures { result ≡ owner_seen (seen pool.now k) }
{
    if !there(pool, k) {
        return NOWHERE;
    }
    let start = pool::place(k);
    let end = start + pool::length(pool, k);
    wire::owner(&pool[start..end])
}

// Replay is told that it was put.
fn told_put(sheet: &mut [u64], pool: &[u8], k: u8)
    ensures { sheet.new ≡ sheet_put sheet.old (seen pool.now k) }
{
    if !there(pool, k) {
        return;
    }
    let start = pool::place(k);
    let end = start + pool::length(pool, k);
    replay::put(sheet, &pool[start..end]);
}

// The message that a step names. Ruled out: the first that waits; one that a send names.
pub fn named(out: &mut [u8], at: usize, pool: &[u8], kind: Kind, k: u8) -> usize
    ensures { page out.new result ≡ inks (page out.old at) (named_texts kind pool.now k) }
{
    match kind {
        Kind::Deliver => shown(out, at, b"  takes ", pool, k),
        Kind::Drop => shown(out, at, b"  takes ", pool, k),
        Kind::Begin => at,
        Kind::Batch => at,
        Kind::OpenRead => at,
        Kind::OpenWrite => at,
        Kind::SetValue => at,
        Kind::Found => at,
        Kind::Reselect => at,
        Kind::RequestCommit => at,
        Kind::Abort => at,
        Kind::LoadHours => at,
        Kind::LoadClasses => at,
        Kind::Send => at,
        Kind::Switch => at,
    }
}

// How many messages an accepted step takes out of the pool.
fn taken_out(kind: Kind, kept: bool) -> u8
    ensures { result ≡ taken_out kind kept }
{
    match kind {
        Kind::Deliver => {
            if kept {
                return 0;
            }
            1
        }
        Kind::Drop => 1,
        Kind::Begin => 0,
        Kind::Batch => 0,
        Kind::OpenRead => 0,
        Kind::OpenWrite => 0,
        Kind::SetValue => 0,
        Kind::Found => 0,
        Kind::Reselect => 0,
        Kind::RequestCommit => 0,
        Kind::Abort => 0,
        Kind::LoadHours => 0,
        Kind::LoadClasses => 0,
        Kind::Send => 0,
        Kind::Switch => 0,
    }
}

// The place of the message that an accepted step put: the last, where one more waits than the step left of those before it.
#[tactic(auto, unfolding(crate::specs::Told::put_place))]
fn put_place(before: u8, gone: u8, now: u8) -> u8
    ensures { result ≡ put_place before gone now }
{
    if now == 0 {
        return NOWHERE;
    }
    if u16::from(now) + u16::from(gone) == u16::from(before) + 1 {
        return now - 1;
    }
    NOWHERE
}

// Replay is told of an accepted step; of a batch that it began (what it opens is told from its record: crate telling).
fn told(sheet: &mut [u64], o: Order, answer: u64, owner: u8)
    ensures { sheet.new ≡ sheet_told o.kind sheet.old o answer owner }
{
    let kind = o.kind;
    match kind {
        Kind::Begin => {
            replay::begun(sheet, o.node);
        }
        Kind::Batch => {
            replay::begun(sheet, o.node);
        }
        Kind::OpenRead => {
            replay::opened(sheet, o.node, o.object, 0);
        }
        Kind::OpenWrite => {
            replay::opened(sheet, o.node, o.object, 1);
        }
        Kind::SetValue => {
            replay::valued(sheet, o.node, o.object, o.value);
        }
        Kind::Deliver => {
            if answer == COMMITTED {
                replay::committed(sheet, owner);
            }
        }
        Kind::Found => {}
        Kind::Reselect => {}
        Kind::RequestCommit => {}
        Kind::Abort => {}
        Kind::LoadHours => {}
        Kind::LoadClasses => {}
        Kind::Send => {}
        Kind::Drop => {}
        Kind::Switch => {}
    }
}

// What comes of an accepted step: the message that it put, for replay and as a line. Ruled out: the first message shown as put; a refused step told.
pub fn conclude(
    pool: &[u8],
    sheet: &mut [u64],
    out: &mut [u8],
    at: usize,
    o: Order,
    a: Answer,
    before: u8,
    owner: u8,
) -> usize
    ensures sheet { sheet.new ≡ sheet_by o a owner (put_by o a before pool.now) sheet.old }
    ensures output { page out.new result
        ≡ inks (page out.old at) (message_line puts_text (put_by o a before pool.now)) }
{
    if a.number != 0 {
        return at;
    }
    let kind = o.kind;
    let k = put_place(before, taken_out(kind, o.flag), count(pool));
    told_put(sheet, pool, k);
    told(sheet, o, a.answer, owner);
    shown(out, at, b"  puts ", pool, k)
}
