// The step that a line names.
ghost use Rattle.std.specs.Prelude.{◌≡◌, ◌+◌, ◌%◌, ◌≤◌};
ghost use Rattle.script.specs.Parse.{arity, may_measure, first_most, second_most, third_most, most_at, count_fits, fit_from, is_good, kind_of, distances_of};
ghost use Rattle.script.specs.Parse.{with_of, order_of, line_of, what_of, parsed};

use crate::line::space;
use crate::{MOST_NUMBERS, Parsed, Said};
use coordinator::BeginWith;
use numbers::NODES;
use orders::{Kind, Order};
use std::array;

const BLANK: u64 = 422725119595;

const BEGIN: u64 = 422608071022;

const RESELECT: u64 = 8243121572419036020;

const READ: u64 = 1919246692;

const WRITE: u64 = 513020621925;

const SET: u64 = 7562612;

const FOUND: u64 = 439956631140;

const ASK: u64 = 6386539;

const ABORT: u64 = 418263298676;

const SEND: u64 = 1936027236;

const DELIVER: u64 = 28259013971305842;

const KEEP: u64 = 1801807216;

const DROP: u64 = 1685221232;

const ON: u64 = 28526;

const OFF: u64 = 7300710;

const CLOCK: u64 = 427021001579;

const LIST: u64 = 1818850164;

const HOURS: u64 = 448546566771;

const CLASSES: u64 = 27985188498924915;

const BATCH: u64 = 422541812584;

const SPOILT: u8 = 7;

// The low bits of a number.
fn low8(x: u64) -> u8
    ensures { result ≡ x % 256 }
{
    (x % 256) as u8
}

fn low16(x: u64) -> u16
    ensures { result ≡ x % 65536 }
{
    (x % 65536) as u16
}

fn low32(x: u64) -> u32
    ensures { result ≡ x % 4294967296 }
{
    (x % 4294967296) as u32
}

// How many numbers follow a word.
#[tactic(auto, unfolding(crate::specs::Parse::arity, crate::specs::Parse::has_three, crate::specs::Parse::has_two, crate::specs::Parse::has_one))]
fn arity(w: u64) -> u64
    ensures { (result ≡ arity w) × (result ≤ 3) }
{
    match w {
        BEGIN | SET | SEND | BATCH => 3,
        READ | WRITE | FOUND | RESELECT | CLOCK => 2,
        ASK | ABORT | ON | OFF | DELIVER | KEEP | DROP | BLANK | HOURS | CLASSES => 1,
        _ => 0,
    }
}

#[tactic(auto, unfolding(crate::specs::Parse::may_measure))]
fn may_measure(w: u64) -> bool
    ensures { result ≡ may_measure w }
{
    w == BEGIN || w == RESELECT
}

// How large each number may be.
#[tactic(auto, unfolding(crate::specs::Parse::first_most))]
fn first_most(w: u64) -> u64
    ensures { result ≡ first_most w }
{
    match w {
        BLANK => 65535,
        CLOCK => 4294967295,
        _ => 255,
    }
}

#[tactic(auto, unfolding(crate::specs::Parse::second_most))]
fn second_most(w: u64) -> u64
    ensures { result ≡ second_most w }
{
    match w {
        BEGIN | BATCH => 4294967295,
        RESELECT | CLOCK => 65535,
        _ => 255,
    }
}

#[tactic(auto, unfolding(crate::specs::Parse::third_most))]
fn third_most(w: u64) -> u64
    ensures { result ≡ third_most w }
{
    match w {
        SET => u64::MAX,
        BEGIN | BATCH => 65535,
        _ => 255,
    }
}

#[tactic(auto, unfolding(crate::specs::Parse::most_at))]
fn most_at(w: u64, i: u64) -> u64
    ensures { result ≡ most_at w i }
{
    if w == LIST {
        return 4294967295;
    }
    if may_measure(w) && arity(w) <= i {
        return 65535;
    }
    match i {
        0 => first_most(w),
        1 => second_most(w),
        _ => third_most(w),
    }
}

// Whether the numbers are as the word wants them.
#[tactic(auto, unfolding(crate::specs::Parse::count_fits))]
fn count_fits(w: u64, n: u64) -> bool
    ensures { result ≡ count_fits w n }
{
    let k = arity(w);
    w == LIST || k != 0 && (n == k || may_measure(w) && n == k + NODES as u64)
}

fn numbers_fit(s: Said) -> bool
    ensures { result ≡ fit_from s.word 0 s.numbers }
{
    s.numbers
        .iter()
        .enumerate()
        .all(|(i, n)| *n <= most_at(s.word, i as u64))
}

#[tactic(auto, unfolding(crate::specs::Parse::is_good))]
fn is_good(s: Said) -> bool
    ensures { result ≡ is_good s }
{
    count_fits(s.word, s.count as u64) && numbers_fit(s)
}

// The kind of a step.
#[tactic(auto, unfolding(crate::specs::Parse::kind_of))]
fn kind_of(w: u64) -> Kind
    ensures { result ≡ kind_of w }
{
    match w {
        BEGIN => Kind::Begin,
        READ => Kind::OpenRead,
        WRITE => Kind::OpenWrite,
        SET => Kind::SetValue,
        FOUND => Kind::Found,
        RESELECT => Kind::Reselect,
        ASK => Kind::RequestCommit,
        ABORT => Kind::Abort,
        SEND => Kind::Send,
        DROP => Kind::Drop,
        HOURS => Kind::LoadHours,
        CLASSES => Kind::LoadClasses,
        BATCH => Kind::Batch,
        DELIVER | KEEP => Kind::Deliver,
        _ => Kind::Switch,
    }
}

// The distances: the numbers behind the others.
fn distances_of(s: Said) -> [u16; NODES]
    ensures { result ≡ distances_of s }
{
    let h = arity(s.word) as usize;
    if s.count == h {
        return [1; NODES];
    }
    array::from_fn(|i| low16(s.numbers[h + i]))
}

// What a begin or a reselect needs.
#[tactic(auto, unfolding(crate::specs::Parse::with_of))]
fn with_of(s: Said) -> BeginWith
    ensures { result ≡ with_of s }
{
    let w = s.word;
    let a = s.numbers[0];
    let b = s.numbers[1];
    let c = s.numbers[2];
    let distances = distances_of(s);
    let live = match w {
        BEGIN | BATCH => c,
        RESELECT => b,
        _ => a,
    };
    BeginWith {
        live: low16(live),
        distances,
        timestamp: low32(b),
    }
}

// The step.
#[tactic(auto, unfolding(crate::specs::Parse::order_of))]
fn order_of(s: Said) -> Order
    ensures { result ≡ order_of s }
{
    let w = s.word;
    let a = s.numbers[0];
    let b = s.numbers[1];
    let c = s.numbers[2];
    let kind = kind_of(w);
    let with = with_of(s);
    Order {
        kind,
        node: low8(a),
        to: low8(b),
        object: low8(if w == SEND { c } else { b }),
        place: low8(a),
        flag: w == KEEP || w == ON,
        value: c,
        day: low32(if w == CLOCK { a } else { 0 }),
        minute: low16(if w == CLOCK { b } else { 0 }),
        with,
    }
}

// What a line is.
#[tactic(auto, unfolding(crate::specs::Parse::line_of, crate::specs::Parse::takes_list))]
fn line_of(w: u64) -> u8
    ensures { result ≡ line_of w }
{
    match w {
        BLANK => 2,
        CLOCK => 4,
        LIST => 5,
        HOURS | CLASSES | BATCH => 6,
        _ => 3,
    }
}

#[tactic(auto, unfolding(crate::specs::Parse::what_of))]
fn what_of(s: Said) -> u8
    ensures { result ≡ what_of s }
{
    if s.part == SPOILT {
        return 1;
    }
    if s.word == 0 {
        return 0;
    }
    if is_good(s) {
        return line_of(s.word);
    }
    1
}

// The end of a line: what it is, and the step that it names.
// Ruled out: a word with a number missing taken as a step; a node of 256 taken as node 0.
#[tactic(auto, unfolding(crate::specs::Parse::parsed))]
pub fn parse(s: Said) -> Parsed
    ensures { result ≡ parsed s }
{
    let t = space(s);
    let order = order_of(t);
    let numbers = t.numbers;
    Parsed {
        what: what_of(t),
        order,
        count: t.count,
        numbers,
    }
}
