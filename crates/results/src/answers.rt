// What a step answered, as text.
ghost use Rattle.std.specs.Prelude.{◌≡◌};
ghost use Rattle.report.specs.Page.{page, inks};
ghost use Rattle.results.specs.Results.{brought_texts, answer_texts, result_texts, refusal_texts};

use buffers::Answer;
use orders::Kind;

// What a delivery brought about.
fn brought(out: &mut [u8], at: usize, v: u64) -> usize
    ensures { page out.new result ≡ inks (page out.old at) (brought_texts v) }
{
    if v == 1 {
        return report::text(out, at, b" committed");
    }
    if v == 2 {
        return report::text(out, at, b" aborted");
    }
    if v == 3 {
        return report::text(out, at, b" ready");
    }
    if v == 4 {
        return report::text(out, at, b" finished");
    }
    at
}

// What an accepted step answered, by its kind.
fn answer(out: &mut [u8], at: usize, kind: Kind, v: u64) -> usize
    ensures { page out.new result ≡ inks (page out.old at) (answer_texts kind v) }
{
    match kind {
        Kind::Begin => report::number(out, at, b" quorum ", v),
        Kind::Batch => report::number(out, at, b" quorum ", v),
        Kind::Reselect => report::number(out, at, b" quorum ", v),
        Kind::RequestCommit => report::number(out, at, b" participants ", v),
        Kind::Found => report::value(out, at, b" value ", v),
        Kind::Abort => brought(out, at, v),
        Kind::Deliver => brought(out, at, v),
        Kind::OpenRead => at,
        Kind::OpenWrite => at,
        Kind::SetValue => at,
        Kind::LoadHours => at,
        Kind::LoadClasses => at,
        Kind::Send => at,
        Kind::Drop => at,
        Kind::Switch => at,
    }
}

// The line of a result: `ok` with what was answered, or the number with its word. Ruled out: `ok` for a refused step; a quorum printed as a value.
pub fn result(out: &mut [u8], at: usize, kind: Kind, a: Answer) -> usize
    ensures { page out.new result ≡ inks (page out.old at) (result_texts kind a) }
{
    if a.number == 0 {
        let x = report::text(out, at, b"  ok");
        let y = answer(out, x, kind, a.answer);
        return report::text(out, y, b"\n");
    }
    refusal(out, at, a.number)
}

// The line of a number: it and its word. Ruled out: the word of another number; a word alone.
pub fn refusal(out: &mut [u8], at: usize, n: u8) -> usize
    ensures { page out.new result ≡ inks (page out.old at) (refusal_texts n) }
{
    let x = report::number(out, at, b"  ", u64::from(n));
    let y = report::text(out, x, b" ");
    let z = report::word(out, y, n);
    report::text(out, z, b"\n")
}
