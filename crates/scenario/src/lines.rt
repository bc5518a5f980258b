// A byte of the input, and its end: a line that is complete is taken, and what comes of it is printed.
ghost use Rattle.std.specs.Prelude.{◌≡◌, true, ◌++◌};
ghost use Rattle.report.specs.Page.{page, inks};
ghost use Rattle.service_calls.specs.Lent.{lent};
ghost use Rattle.runs.specs.Order.{call_of};
ghost use Rattle.runs.specs.Left.{left_of};
ghost use Rattle.reading.specs.Reading.{next};
ghost use Rattle.reading.specs.Notes.{echo_texts};
ghost use Rattle.performing.specs.Steps.{step_texts, step_sheet};
ghost use Rattle.scenario.specs.Lines.{ended_texts, started_texts, anew_texts, anew_reader, anew_buffers, anew_sheet, shape_of};
ghost use Rattle.scenario.specs.Lines.{laid_reader, laid_buffers, laid_sheet, laid_texts, line_reader, line_buffers, line_list, line_sheet, line_texts};
ghost use Rattle.scenario.specs.Lines.{reader_after, buffers_after, list_after, sheet_after, texts_after, last_texts};

use lists::Shape;
use numbers::EVERY_NODE;
use orders::{Kind, Order};
use performing::perform;
use reading::{Reader, Taken, echo, heard, kept, listing, next, noted, passed, timed};
use results::refusal;

const NEWLINE: u8 = 10;

// The kinds of lines that `script` tells apart.
const BAD: u8 = 1;

const BLANK: u8 = 2;

const STEP: u8 = 3;

const CLOCK: u8 = 4;

const LIST: u8 = 5;

const LAID: u8 = 6;

// The end of the scenario that runs.
fn ended(
    images: &[u8],
    records: &[u8],
    settings: &[u8],
    sheet: &[u64],
    out: &mut [u8],
    at: usize,
    going: bool,
) -> usize
    ensures { page out.new result ≡ inks (page out.old at)
        (ended_texts going images.now records.now settings.now sheet.now) }
{
    if going {
        return closing::close(images, records, settings, sheet, out, at);
    }
    at
}

// What is printed for a `blank` behind its line: nothing where the buffers are a station's.
fn started(out: &mut [u8], at: usize, number: u8) -> usize
    ensures { page out.new result ≡ inks (page out.old at) (started_texts number) }
{
    if number != 0 {
        return refusal(out, at, number);
    }
    at
}

// A `blank`: the end of the scenario that runs, and a new one.
fn anew(
    r: Reader,
    images: &mut [u8],
    records: &mut [u8],
    pool: &mut [u8],
    own: &mut [u8],
    settings: &mut [u8],
    sheet: &mut [u64],
    out: &mut [u8],
    mask: u16,
) -> Taken
    ensures reader { result.reader ≡ anew_reader r mask }
    ensures buffers { lent images.new records.new pool.new own.new settings.new
        ≡ anew_buffers (lent images.old records.old pool.old own.old settings.old) mask }
    ensures sheet { sheet.new ≡ anew_sheet sheet.old mask }
    ensures output { page out.new result.written
        ≡ inks (page out.old 0)
        (anew_texts r (lent images.old records.old pool.old own.old settings.old)
        sheet.old mask) }
{
    if EVERY_NODE < mask {
        let a = echo(out, 0, r);
        let b = refusal(out, a, numbers::STRANGER);
        let t = next(r, r.going);
        return Taken {
            reader: t,
            written: b,
        };
    }
    let x = ended(images, records, settings, sheet, out, 0, r.going);
    let number = runs::start(images, records, pool, own, settings, mask);
    replay::blank(sheet);
    let y = echo(out, x, r);
    let z = started(out, y, number);
    let then = kept(r, 0, 0, 0);
    let t = next(then, true);
    Taken {
        reader: t,
        written: z,
    }
}

// A step, printed behind its line, with the bytes that are lent beside it; `then` is the reader that goes on.
fn stepped(
    r: Reader,
    then: Reader,
    images: &mut [u8],
    records: &mut [u8],
    pool: &mut [u8],
    own: &mut [u8],
    settings: &mut [u8],
    list: &[u8],
    sheet: &mut [u64],
    out: &mut [u8],
    o: Order,
) -> Taken
    ensures reader { result.reader ≡ next then true }
    ensures buffers { lent images.new records.new pool.new own.new settings.new
        ≡ left_of (lent images.old records.old pool.old own.old settings.old)
        (call_of o list.now) }
    ensures sheet { sheet.new
        ≡ step_sheet (lent images.old records.old pool.old own.old settings.old) o
        list.now sheet.old }
    ensures output { page out.new result.written
        ≡ inks (page out.old 0)
        (echo_texts r ++ step_texts (lent images.old records.old pool.old own.old settings.old) o
        list.now) }
{
    let a = echo(out, 0, r);
    let b = perform(images, records, pool, own, settings, list, sheet, out, a, o);
    let t = next(then, true);
    Taken {
        reader: t,
        written: b,
    }
}

// How a kind of step has its list laid; only three kinds take one.
fn shape_of(kind: Kind) -> Shape
    ensures { result ≡ shape_of kind }
{
    match kind {
        Kind::LoadClasses => Shape::Classes,
        Kind::Batch => Shape::Weights,
        _ => Shape::Hours,
    }
}

// A step that takes what is listed, laid as its kind has it.
fn laid(
    r: Reader,
    images: &mut [u8],
    records: &mut [u8],
    pool: &mut [u8],
    own: &mut [u8],
    settings: &mut [u8],
    list: &[u64],
    sheet: &mut [u64],
    out: &mut [u8],
    o: Order,
) -> Taken
    ensures reader { result.reader ≡ laid_reader r list.now o }
    ensures buffers { lent images.new records.new pool.new own.new settings.new
        ≡ laid_buffers r list.now
        (lent images.old records.old pool.old own.old settings.old) o }
    ensures sheet { sheet.new
        ≡ laid_sheet r list.now
        (lent images.old records.old pool.old own.old settings.old) sheet.old o }
    ensures output { page out.new result.written
        ≡ inks (page out.old 0)
        (laid_texts r list.now
        (lent images.old records.old pool.old own.old settings.old) o) }
{
    let mut bytes = [0u8; lists::SIZE];
    let kind = o.kind;
    let shape = shape_of(kind);
    let done = lists::lay(list, r.listed, shape, &mut bytes);
    if !done.fits {
        return passed(r, out, BAD);
    }
    let long = done.long;
    let then = kept(r, r.day, r.minute, 0);
    stepped(
        r,
        then,
        images,
        records,
        pool,
        own,
        settings,
        &bytes[..long],
        sheet,
        out,
        o,
    )
}

// A line that ended.
fn line(
    r: Reader,
    images: &mut [u8],
    records: &mut [u8],
    pool: &mut [u8],
    own: &mut [u8],
    settings: &mut [u8],
    list: &mut [u64],
    sheet: &mut [u64],
    out: &mut [u8],
) -> Taken
    ensures reader { result.reader ≡ line_reader r list.old }
    ensures buffers { lent images.new records.new pool.new own.new settings.new
        ≡ line_buffers r list.old
        (lent images.old records.old pool.old own.old settings.old) }
    ensures list { list.new ≡ line_list r list.old }
    ensures sheet { sheet.new
        ≡ line_sheet r list.old
        (lent images.old records.old pool.old own.old settings.old) sheet.old }
    ensures output { page out.new result.written
        ≡ inks (page out.old 0)
        (line_texts r list.old
        (lent images.old records.old pool.old own.old settings.old) sheet.old) }
{
    let said = r.said;
    let p = script::parse(said);
    let q = p.order;
    let o = timed(r, q);
    if p.what == BLANK {
        let mask = q.with.live;
        return anew(r, images, records, pool, own, settings, sheet, out, mask);
    }
    if p.what == STEP {
        return stepped(
            r, r, images, records, pool, own, settings, b"", sheet, out, o,
        );
    }
    if p.what == CLOCK {
        let then = kept(r, q.day, q.minute, r.listed);
        return heard(r, then, out);
    }
    if p.what == LIST {
        let numbers = p.numbers;
        return listing(r, list, out, numbers, p.count);
    }
    if p.what == LAID {
        return laid(r, images, records, pool, own, settings, list, sheet, out, o);
    }
    passed(r, out, p.what)
}

// One byte of the input. Ruled out: a step taken before its line has ended; a bad line that does something.
pub fn take(
    r: Reader,
    b: u8,
    images: &mut [u8],
    records: &mut [u8],
    pool: &mut [u8],
    own: &mut [u8],
    settings: &mut [u8],
    list: &mut [u64],
    sheet: &mut [u64],
    out: &mut [u8],
) -> Taken
    ensures reader { result.reader ≡ reader_after r b list.old }
    ensures buffers { lent images.new records.new pool.new own.new settings.new
        ≡ buffers_after r b list.old
        (lent images.old records.old pool.old own.old settings.old) }
    ensures list { list.new ≡ list_after r b list.old }
    ensures sheet { sheet.new
        ≡ sheet_after r b list.old
        (lent images.old records.old pool.old own.old settings.old) sheet.old }
    ensures output { page out.new result.written
        ≡ inks (page out.old 0)
        (texts_after r b list.old
        (lent images.old records.old pool.old own.old settings.old) sheet.old) }
{
    if b == NEWLINE {
        return line(r, images, records, pool, own, settings, list, sheet, out);
    }
    let t = noted(r, b);
    Taken {
        reader: t,
        written: 0,
    }
}

// The end of the input: a last line without its newline counts, and the last scenario ends.
// Ruled out: the last line dropped; an ending printed where no scenario ran.
pub fn finish(
    r: Reader,
    images: &mut [u8],
    records: &mut [u8],
    pool: &mut [u8],
    own: &mut [u8],
    settings: &mut [u8],
    list: &mut [u64],
    sheet: &mut [u64],
    out: &mut [u8],
) -> usize
    ensures buffers { lent images.new records.new pool.new own.new settings.new
        ≡ line_buffers r list.old
        (lent images.old records.old pool.old own.old settings.old) }
    ensures list { list.new ≡ line_list r list.old }
    ensures sheet { sheet.new
        ≡ line_sheet r list.old
        (lent images.old records.old pool.old own.old settings.old) sheet.old }
    ensures output { page out.new result
        ≡ inks (page out.old 0)
        (last_texts r list.old
        (lent images.old records.old pool.old own.old settings.old) sheet.old) }
{
    let t = line(r, images, records, pool, own, settings, list, sheet, out);
    let s = t.reader;
    ended(images, records, settings, sheet, out, t.written, s.going)
}
