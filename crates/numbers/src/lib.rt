// Document 01's numbers and document 02's, by their words, and how a call's number is found; 0 is no refusal. The sizes that everything is built to.
#![tactic(auto)]

ghost use Rattle.std.specs.Prelude.{◌≡◌, cond, ◌&&◌, ◌||◌};
ghost use Rattle.numbers.specs.Refusal.{lower};

mod refusals;
mod sizes;

pub use refusals::{Refusal, first_refusal, number};
pub use sizes::{
    EVERY_NODE, HIGHEST, LONGEST_MESSAGE, MOST_OPEN, MOST_WAITING, NOBODY, NODES, NODES_END,
    OBJECTS, OBJECTS_END, SHORTEST_MESSAGE, UNKNOWN,
};

pub const LENGTH: u8 = 1;

pub const DAMAGED: u8 = 2;

pub const GARBLED: u8 = 3;

pub const STRANGER: u8 = 4;

pub const OUT_OF_TURN: u8 = 5;

pub const NO_SUCH_OBJECT: u8 = 6;

pub const EIGHT_OPEN: u8 = 7;

pub const NO_QUORUM: u8 = 8;

pub const USED_UP: u8 = 9;

pub const BUSY: u8 = 10;

pub const NOT_READY: u8 = 11;

pub const POOL_FULL: u8 = 12;

pub const CLOSED: u8 = 13;

pub const BOUNDS: u8 = 14;

pub const TALLY_TWICE: u8 = 15;

// Both tests hold. Ruled out: either of them is enough; the second alone counts.
pub fn both(a: bool, b: bool) -> bool
    ensures { result ≡ (a && b) }
{
    a && b
}

// Either test holds. Ruled out: both are needed; the first alone counts.
pub fn either(a: bool, b: bool) -> bool
    ensures { result ≡ (a || b) }
{
    a || b
}

// One refusal before the rest of its list. Ruled out: the rest before it; its number where it does not fit.
pub fn refuse(number: u8, fits: bool, rest: u8) -> u8
    ensures { result ≡ cond fits number rest }
{
    if fits { number } else { rest }
}

// One number or another. Ruled out: the second where the test holds; their sum.
pub fn pick(first: bool, a: u8, b: u8) -> u8
    ensures { result ≡ cond first a b }
{
    if first { a } else { b }
}

// Of two numbers the lower that is not 0. Ruled out: the higher; 0 where one of them is not.
pub fn lower(m: u8, n: u8) -> u8
    ensures { result ≡ lower m n }
{
    if m == 0 {
        return n;
    }
    if n == 0 {
        return m;
    }
    m.min(n)
}
