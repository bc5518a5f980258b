// Texts put into a lent buffer one behind another: numbers, messages with their fields, and the words of the numbers. Each function answers the position
// behind what it wrote; a text that does not fit is left out.
#![tactic(auto)]

ghost use Rattle.std.specs.Prelude.{◌≡◌, ◌<◌, get_or};
ghost use Rattle.report.specs.Page.{page, ink, inks};
ghost use Rattle.report.specs.Each.{each_from};
ghost use Rattle.report.specs.Texts.{kind_word, number_texts, value_texts, mode_text, entry_texts, rival_texts, nth_entry_texts, nth_rival_texts};
ghost use Rattle.report.specs.Texts.{route_texts, name_texts, message_texts, word_of_number};
ghost use Rattle.report.specs.Table.{places, row_at, cap, kind_row};
ghost use Rattle.decimal.specs.Decimal.{decimal};

use view::Header;
use wire::{Entry, Rival};

// Puts a text. Ruled out: a text cut off at the buffer's end; a byte behind it that changes.
#[tactic(auto, unfolding(crate::specs::Page::ink, crate::specs::Page::page))]
pub fn text(out: &mut [u8], at: usize, t: &[u8]) -> usize
    ensures { page out.new result ≡ ink (page out.old at) t.now }
{
    decimal::append(out, at, t)
}

// Puts a number.
#[tactic(auto, unfolding(crate::specs::Page::ink, crate::specs::Page::page))]
fn digits(out: &mut [u8], at: usize, n: u64) -> usize
    ensures { page out.new result ≡ ink (page out.old at) (decimal n) }
{
    decimal::put(out, at, n)
}

// A number behind a label. Ruled out: the number before its label; "07" for 7.
#[tactic(auto, unfolding(crate::specs::Page::inks, crate::specs::Texts::number_texts))]
pub fn number(out: &mut [u8], at: usize, label: &[u8], n: u64) -> usize
    ensures { page out.new result ≡ inks (page out.old at) (number_texts label.now n) }
{
    let a = text(out, at, label);
    digits(out, a, n)
}

// A value behind a label, 64 bits read as a signed number. Ruled out: 18446744073709551615 for -1; "-0" for 0.
#[tactic(auto, unfolding(crate::specs::Page::inks, crate::specs::Texts::value_texts))]
pub fn value(out: &mut [u8], at: usize, label: &[u8], v: u64) -> usize
    ensures { page out.new result ≡ inks (page out.old at) (value_texts label.now v) }
{
    if v < 9223372036854775808 {
        return number(out, at, label, v);
    }
    let a = text(out, at, label);
    number(out, a, b"-", u64::MAX - v + 1)
}

// The words of the numbers and of the kinds, a row each: `closed`, those of the numbers 1 to 12, those of the kinds.
const WORDS: [u8; 167] = *b"tally twice\
    length\
    damaged\
    garbled\
    stranger\
    out of turn\
    no such tally\
    eight open\
    no quorum\
    number used up\
    busy\
    not ready\
    pool full\
    closed\
    bounds\
    fetch\
    copy\
    ask\
    no\
    yes\
    abort\
    commit\
    done\
    yield";

// Where each row begins, and where the last one ends.
const PLACES: [usize; 25] = [
    0, 11, 17, 24, 31, 39, 50, 63, 73, 82, 96, 100, 109, 118, 124, 130, 135, 139, 142, 144, 147,
    152, 158, 162, 167,
];

// The rows of each kind, for a word other than 1 and for 1; first those of kinds that are none of 1 to 6.
const KINDS: [usize; 14] = [23, 23, 15, 15, 16, 16, 17, 17, 18, 19, 20, 21, 22, 22];

// Where a row begins.
fn place(k: usize) -> usize
    requires { k < 25 }
    ensures { result ≡ get_or places k 0 }
{
    PLACES[k]
}

// Puts the word of a row.
fn row(out: &mut [u8], at: usize, k: usize) -> usize
    requires { k < 24 }
    ensures { page out.new result ≡ ink (page out.old at) (row_at k) }
{
    let a = place(k);
    let e = place(k + 1);
    text(out, at, &WORDS[a..e])
}

// A number below a limit, 0 for any other.
fn capped(n: u8, limit: u8) -> usize
    requires { 0 < limit }
    ensures { (result ≡ cap limit n) × (result < limit) }
{
    if n < limit { usize::from(n) } else { 0 }
}

// The row of a kind, with the message's word.
fn kind_row(kind: u8, word: u8) -> usize
    ensures { (result ≡ kind_row kind word) × (result < 24) }
{
    let k = capped(kind, 7);
    if word == 1 {
        KINDS[2 * k + 1]
    } else {
        KINDS[2 * k]
    }
}

// The word of a message.
fn kind_word(out: &mut [u8], at: usize, kind: u8, word: u8) -> usize
    ensures { page out.new result ≡ ink (page out.old at) (kind_word kind word) }
{
    row(out, at, kind_row(kind, word))
}

// An object with its mode.
#[tactic(auto, unfolding(crate::specs::Page::inks, crate::specs::Texts::mode_text, crate::specs::Texts::number_texts))]
fn mode(out: &mut [u8], at: usize, mode: u8, object: u8) -> usize
    ensures { page out.new result ≡ inks (page out.old at) (number_texts (mode_text mode) object) }
{
    if mode == 0 {
        return number(out, at, b" read ", u64::from(object));
    }
    number(out, at, b" write ", u64::from(object))
}

// An entry and a rival of a message.
fn entry(out: &mut [u8], at: usize, e: Entry) -> usize
    ensures { page out.new result ≡ inks (page out.old at) (entry_texts e) }
{
    let a = mode(out, at, e.mode, e.object);
    let b = number(out, a, b" version ", u64::from(e.version));
    value(out, b, b" value ", e.value)
}

fn rival(out: &mut [u8], at: usize, r: Rival) -> usize
    ensures { page out.new result ≡ inks (page out.old at) (rival_texts r) }
{
    let a = number(out, at, b" rival ", u64::from(r.owner));
    number(out, a, b".", u64::from(r.serial))
}

// All entries, and all rivals, of a message in their order.
fn entries(out: &mut [u8], at: usize, m: &[u8], n: u8) -> usize
    ensures { page out.new result ≡ inks (page out.old at) (each_from (nth_entry_texts m.now) n 0) }
{
    let mut a = at;
    for i in 0..n {
        a = entry(out, a, view::show(m, i).entry);
    }
    a
}

fn rivals(out: &mut [u8], at: usize, m: &[u8], n: u8) -> usize
    ensures { page out.new result ≡ inks (page out.old at) (each_from (nth_rival_texts m.now) n 0) }
{
    let mut a = at;
    for i in 0..n {
        a = rival(out, a, view::show(m, i).rival);
    }
    a
}

// What a message is, between which nodes, and of which transaction.
fn route(out: &mut [u8], at: usize, h: Header, word: u8) -> usize
    ensures { page out.new result ≡ inks (page out.old at) (route_texts h word) }
{
    let a = kind_word(out, at, h.kind, word);
    let b = number(out, a, b" ", u64::from(h.from));
    number(out, b, b" to ", u64::from(h.to))
}

fn name(out: &mut [u8], at: usize, h: Header) -> usize
    ensures { page out.new result ≡ inks (page out.old at) (name_texts h) }
{
    let a = number(out, at, b" for ", u64::from(h.owner));
    let b = number(out, a, b".", u64::from(h.serial));
    number(out, b, b" stamp ", u64::from(h.stamp))
}

// A message as its view shows it. Ruled out: sender and receiver exchanged; a rival left out.
pub fn message(out: &mut [u8], at: usize, m: &[u8]) -> usize
    ensures { page out.new result ≡ inks (page out.old at) (message_texts m.now) }
{
    let s = view::show(m, 0);
    let h = s.header;
    let k = s.counts;
    let a = route(out, at, h, s.word);
    let b = name(out, a, h);
    let c = entries(out, b, m, k.entries);
    rivals(out, c, m, k.rivals)
}

// The word of a number. Ruled out: `busy` for 5; the word of the number beside it.
pub fn word(out: &mut [u8], at: usize, n: u8) -> usize
    ensures { page out.new result ≡ ink (page out.old at) (word_of_number n) }
{
    row(out, at, capped(n, 15))
}
