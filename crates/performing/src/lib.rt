// A step taken at the station: the message that it names, what it answered and the message that it put are printed, and replay is told of it.
#![tactic(auto)]

ghost use Rattle.std.specs.Prelude.{◌≡◌};
ghost use Rattle.report.specs.Page.{page, inks};
ghost use Rattle.service_calls.specs.Lent.{lent};
ghost use Rattle.runs.specs.Order.{call_of};
ghost use Rattle.runs.specs.Left.{left_of};
ghost use Rattle.results.specs.Told.{puts_text, message_line, put_by, sheet_by};
ghost use Rattle.telling.specs.Telling.{told};
ghost use Rattle.performing.specs.Steps.{step_texts, step_sheet};

use buffers::Answer;
use orders::Order;
use results::{conclude, count, named, owner_of, result};
use telling::tell;

// What comes of a step, for replay and as a line: the message that it put; and of a batch, what its record has.
fn concluded(
    records: &[u8],
    settings: &[u8],
    pool: &[u8],
    sheet: &mut [u64],
    out: &mut [u8],
    at: usize,
    o: Order,
    a: Answer,
    before: u8,
    owner: u8,
) -> usize
    ensures sheet { sheet.new
        ≡ told a.number o.kind records.now settings.now o.node
        (sheet_by o a owner (put_by o a before pool.now) sheet.old) }
    ensures output { page out.new result
        ≡ inks (page out.old at) (message_line puts_text (put_by o a before pool.now)) }
{
    let z = conclude(pool, sheet, out, at, o, a, before, owner);
    let kind = o.kind;
    tell(records, settings, sheet, kind, o.node, a.number);
    z
}

// One step: the message that it names, what it answered, and the message that it put. Ruled out: a refused step told; what a batch opens left out.
pub fn perform(
    images: &mut [u8],
    records: &mut [u8],
    pool: &mut [u8],
    own: &mut [u8],
    settings: &mut [u8],
    list: &[u8],
    sheet: &mut [u64],
    out: &mut [u8],
    at: usize,
    o: Order,
) -> usize
    ensures buffers { lent images.new records.new pool.new own.new settings.new
        ≡ left_of (lent images.old records.old pool.old own.old settings.old)
        (call_of o list.now) }
    ensures sheet { sheet.new
        ≡ step_sheet (lent images.old records.old pool.old own.old settings.old) o
        list.now sheet.old }
    ensures output { page out.new result
        ≡ inks (page out.old at)
        (step_texts (lent images.old records.old pool.old own.old settings.old) o
        list.now) }
{
    let before = count(pool);
    let owner = owner_of(pool, o.place);
    let kind = o.kind;
    let x = named(out, at, pool, kind, o.place);
    let a = runs::step(images, records, pool, own, settings, list, o);
    let y = result(out, x, kind, a);
    concluded(records, settings, pool, sheet, out, y, o, a, before, owner)
}
