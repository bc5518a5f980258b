// Lines that are no steps: the line itself is printed, or that it is none.
ghost use Rattle.std.specs.Prelude.{◌≡◌, ◌+◌, ◌<◌};
ghost use Rattle.report.specs.Page.{page, inks};
ghost use Rattle.lists.specs.Lists.{appended};
ghost use Rattle.reading.specs.Reading.{next};
ghost use Rattle.reading.specs.Notes.{front_texts, echo_texts, complaint_texts, listed_after, list_reader, list_texts};

use crate::reading::{kept, next};
use crate::{Reader, Taken};
use script::MOST_NUMBERS;

// The kind of a line that is bad.
const BAD: u8 = 1;

// The front of some bytes.
fn front(out: &mut [u8], at: usize, text: &[u8], long: usize) -> usize
    ensures { page out.new result ≡ inks (page out.old at) (front_texts text.now long) }
{
    if text.len() < long {
        return at;
    }
    report::text(out, at, &text[..long])
}

// The line itself, with its number. Ruled out: a line without its comment; bytes of a longer line before it.
pub fn echo(out: &mut [u8], at: usize, r: Reader) -> usize
    ensures { page out.new result ≡ inks (page out.old at) (echo_texts r) }
{
    let a = report::number(out, at, b"", r.line);
    let b = report::text(out, a, b" ");
    let text = r.text;
    let c = front(out, b, &text, r.long);
    report::text(out, c, b"\n")
}

// A line that is no step.
fn complaint(out: &mut [u8], what: u8, line: u64) -> usize
    ensures { page out.new result ≡ inks (page out.old 0) (complaint_texts what line) }
{
    if what == BAD {
        let a = report::number(out, 0, b"line ", line);
        return report::text(out, a, b": no such step, nothing done\n");
    }
    0
}

// A line that does nothing, or that is none. Ruled out: a line that says nothing printed as bad; the line's number taken from the next.
pub fn passed(r: Reader, out: &mut [u8], what: u8) -> Taken
    ensures reader { result.reader ≡ next r r.going }
    ensures output { page out.new result.written ≡ inks (page out.old 0) (complaint_texts what r.line) }
{
    let a = complaint(out, what, r.line);
    let t = next(r, r.going);
    Taken {
        reader: t,
        written: a,
    }
}

// A line that only says something of the lines behind it. Ruled out: a scenario that runs because of it; a line that is not printed.
pub fn heard(r: Reader, then: Reader, out: &mut [u8]) -> Taken
    ensures reader { result.reader ≡ next then r.going }
    ensures output { page out.new result.written ≡ inks (page out.old 0) (echo_texts r) }
{
    let a = echo(out, 0, r);
    let t = next(then, r.going);
    Taken {
        reader: t,
        written: a,
    }
}

// How many numbers are listed behind a `list` that has room.
fn listed_after(listed: usize, count: usize) -> usize
    requires { listed + count < 18446744073709551616 }
    ensures { result ≡ listed_after listed count }
{
    if count == 0 { 0 } else { listed + count }
}

// A `list`. Ruled out: the numbers before it forgotten; a list that is too long cut off.
pub fn listing(
    r: Reader,
    list: &mut [u64],
    out: &mut [u8],
    numbers: [u64; MOST_NUMBERS],
    count: usize,
) -> Taken
    ensures reader { result.reader ≡ list_reader r list.old count }
    ensures list { list.new ≡ appended list.old r.listed numbers count }
    ensures output { page out.new result.written ≡ inks (page out.old 0) (list_texts r list.old count) }
{
    if !lists::append(list, r.listed, numbers, count) {
        return passed(r, out, BAD);
    }
    let n = listed_after(r.listed, count);
    let then = kept(r, r.day, r.minute, n);
    heard(r, then, out)
}
