// A line that is being read, with its bytes, and what is kept from line to line.
ghost use Rattle.std.specs.Prelude.{◌≡◌};
ghost use Rattle.reading.specs.Reading.{fresh, noted, next, kept, timed};

use crate::{LONGEST_LINE, Reader};
use orders::Order;

// The part of a line that is bad, whatever comes.
const SPOILT: u8 = 7;

// Nothing is read yet. Ruled out: a first line numbered 0; a scenario that runs already.
pub fn fresh() -> Reader
    ensures { result ≡ fresh }
{
    let said = script::fresh();
    Reader {
        said,
        text: [0; 160],
        long: 0,
        line: 1,
        going: false,
        day: 0,
        minute: 0,
        listed: 0,
    }
}

// One byte of a line; a line that is too long is bad. Ruled out: the last byte overwritten; a line of 161 bytes that is a step.
pub fn noted(r: Reader, b: u8) -> Reader
    ensures { result ≡ noted r b }
{
    let mut t = r;
    let said = r.said;
    let i = r.long;
    if i < LONGEST_LINE {
        t.text[i] = b;
        t.long = i + 1;
        t.said = script::step(said, b);
        return t;
    }
    let mut bad = said;
    bad.part = SPOILT;
    t.said = bad;
    t
}

// The next line. Ruled out: the number of the line before; a clock that starts again.
pub fn next(r: Reader, going: bool) -> Reader
    ensures { result ≡ next r going }
{
    let mut t = r;
    let n = r.line;
    t.said = script::fresh();
    t.long = 0;
    t.line = if n < 18446744073709551615 { n + 1 } else { n };
    t.going = going;
    t
}

// Another clock, and another count of what is listed. Ruled out: the line said again; day and minute the other way round.
pub fn kept(r: Reader, day: u32, minute: u16, listed: usize) -> Reader
    ensures { result ≡ kept r day minute listed }
{
    let mut t = r;
    t.day = day;
    t.minute = minute;
    t.listed = listed;
    t
}

// An order with the clock. Ruled out: an order of another kind; the minute of the line itself.
pub fn timed(r: Reader, o: Order) -> Order
    ensures { result ≡ timed r o }
{
    let mut t = o;
    t.day = r.day;
    t.minute = r.minute;
    t
}
