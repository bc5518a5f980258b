// What the bytes of a line say, one after another.
ghost use Rattle.std.specs.Prelude.{◌≡◌, ◌+◌, ◌<◌};
ghost use Rattle.script.specs.Said.{fresh, in_part, bad, letter, most, digits_part, digit, negated, bits};
ghost use Rattle.script.specs.Said.{with_number, complete, space, silenced, minus, sign, letter_or_none};
ghost use Rattle.script.specs.Said.{step as stepSaid};

use crate::{MOST_NUMBERS, Said};

// The parts of a line.
const BEFORE_WORD: u8 = 0;

const IN_WORD: u8 = 1;

const BETWEEN: u8 = 2;

const IN_NUMBER: u8 = 3;

const BEHIND_MINUS: u8 = 4;

const IN_NEGATIVE: u8 = 5;

const IN_COMMENT: u8 = 6;

const SPOILT: u8 = 7;

// The largest number that another digit may be put behind, and the largest word that another letter may.
const SHORT_NUMBER: u64 = 922337203685477580;

const SHORT_WORD: u64 = 72057594037927935;

// A line of which nothing is read. Ruled out: a line that is bad at once; one that begins with numbers of the line before.
#[tactic(auto, unfolding(crate::specs::Said::fresh))]
pub fn fresh() -> Said
    ensures { result ≡ fresh }
{
    Said {
        part: BEFORE_WORD,
        word: 0,
        count: 0,
        value: 0,
        numbers: [0; MOST_NUMBERS],
    }
}

// The same in another part.
#[tactic(auto, unfolding(crate::specs::Said::in_part))]
pub(crate) fn in_part(s: Said, p: u8) -> Said
    ensures { result ≡ in_part s p }
{
    Said { part: p, ..s }
}

// A letter.
#[tactic(auto, unfolding(crate::specs::Said::letter, crate::specs::Said::with_letter))]
fn letter(s: Said, b: u8) -> Said
    ensures { result ≡ letter s b }
{
    if IN_WORD < s.part {
        return in_part(s, SPOILT);
    }
    if SHORT_WORD < s.word {
        return in_part(s, SPOILT);
    }
    Said {
        part: IN_WORD,
        word: s.word * 256 + u64::from(b),
        ..s
    }
}

// The largest number, by its sign.
#[tactic(auto, unfolding(crate::specs::Said::most))]
fn most(part: u8) -> u64
    ensures { result ≡ most part }
{
    if part < BEHIND_MINUS {
        9223372036854775807
    } else {
        9223372036854775808
    }
}

#[tactic(auto, unfolding(crate::specs::Said::digits_part))]
fn digits_part(part: u8) -> u8
    ensures { result ≡ digits_part part }
{
    if part < BEHIND_MINUS {
        IN_NUMBER
    } else {
        IN_NEGATIVE
    }
}

// A digit.
#[tactic(auto, unfolding(crate::specs::Said::digit, crate::specs::Said::with_digit))]
fn digit(s: Said, d: u8) -> Said
    requires { d < 10 }
    ensures { result ≡ digit s d }
{
    if s.part < BETWEEN {
        return in_part(s, SPOILT);
    }
    if SHORT_NUMBER < s.value {
        return in_part(s, SPOILT);
    }
    let v = s.value * 10 + u64::from(d);
    if most(s.part) < v {
        return in_part(s, SPOILT);
    }
    Said {
        part: digits_part(s.part),
        value: v,
        ..s
    }
}

// The bits of a number.
#[tactic(auto, unfolding(crate::specs::Said::negated))]
fn negated(v: u64) -> u64
    ensures { result ≡ negated v }
{
    v.wrapping_neg()
}

#[tactic(auto, unfolding(crate::specs::Said::bits))]
fn bits(part: u8, v: u64) -> u64
    ensures { result ≡ bits part v }
{
    if part == IN_NEGATIVE { negated(v) } else { v }
}

// One more number.
#[tactic(auto, unfolding(crate::specs::Said::with_number))]
fn number(s: Said, v: u64) -> Said
    requires { s.count < 16 }
    ensures { result ≡ with_number s v }
{
    let mut t = s;
    let i = s.count;
    t.part = BETWEEN;
    t.count = i + 1;
    t.value = 0;
    t.numbers[i] = v;
    t
}

// The number that was read is complete; a line with too many is bad.
#[tactic(auto, unfolding(crate::specs::Said::complete))]
fn complete(s: Said) -> Said
    ensures { result ≡ complete s }
{
    if s.count < MOST_NUMBERS {
        return number(s, bits(s.part, s.value));
    }
    in_part(s, SPOILT)
}

// A space.
#[tactic(auto, unfolding(crate::specs::Said::space))]
pub(crate) fn space(s: Said) -> Said
    ensures { result ≡ space s }
{
    match s.part {
        IN_WORD => in_part(s, BETWEEN),
        IN_NUMBER | IN_NEGATIVE => complete(s),
        BEHIND_MINUS => in_part(s, SPOILT),
        _ => s,
    }
}

// A comment begins.
#[tactic(auto, unfolding(crate::specs::Said::silenced))]
fn silenced(s: Said) -> Said
    ensures { result ≡ silenced s }
{
    if s.part == SPOILT {
        return s;
    }
    in_part(s, IN_COMMENT)
}

// A minus.
#[tactic(auto, unfolding(crate::specs::Said::minus))]
fn minus(s: Said) -> Said
    ensures { result ≡ minus s }
{
    if s.part == BETWEEN {
        return in_part(s, BEHIND_MINUS);
    }
    in_part(s, SPOILT)
}

// A byte below the digits.
#[tactic(auto, unfolding(crate::specs::Said::sign))]
fn sign(s: Said, b: u8) -> Said
    ensures { result ≡ sign s b }
{
    match b {
        b' ' => space(s),
        b'#' => silenced(space(s)),
        b'-' => minus(s),
        _ => in_part(s, SPOILT),
    }
}

// A byte above them.
#[tactic(auto, unfolding(crate::specs::Said::letter_or_none))]
fn letter_or_none(s: Said, b: u8) -> Said
    ensures { result ≡ letter_or_none s b }
{
    match b {
        b'a'..=b'z' => letter(s, b),
        _ => in_part(s, SPOILT),
    }
}

// One byte of a line. Ruled out: a letter behind a number taken as part of a word; a comment that is read as part of the line.
#[tactic(auto, unfolding(crate::specs::Said::step))]
pub fn step(s: Said, b: u8) -> Said
    ensures { result ≡ stepSaid s b }
{
    if IN_NEGATIVE < s.part {
        return s;
    }
    if b < 48 {
        return sign(s, b);
    }
    if 57 < b {
        return letter_or_none(s, b);
    }
    digit(s, b - 48)
}
