// The end of a scenario as text: for each object with a version above 0 or a value in replay its newest version and value, the nodes that have
// it, its author and replay's value; for each node with a table of classes the tenths that wait; and whether the station is at rest and settled.
#![tactic(auto)]

mod copies;
mod state;
mod tenths;

ghost use Rattle.std.specs.Prelude.{◌≡◌};
ghost use Rattle.report.specs.Page.{page, inks};
ghost use Rattle.closing.specs.Texts.{answer_texts, closed};

use copies::objects;
use state::{at_rest, settled};
use tenths::waiting;

// The newest copy of an object, the nodes that have it, and its author at the first of them: owner and serial.
#[derive(Clone, Copy)]
pub struct Best {
    pub version: u32,
    pub value: u64,
    pub nodes: u16,
    pub author: u8,
    pub serial: u32,
}

// `yes` or `no`, behind a label.
fn answered(out: &mut [u8], at: usize, label: &[u8], said: bool) -> usize
    ensures { page out.new result ≡ inks (page out.old at) (answer_texts label.now said) }
{
    let a = report::text(out, at, label);
    if said {
        return report::text(out, a, b" yes\n");
    }
    report::text(out, a, b" no\n")
}

// The end of a scenario. Ruled out: a copy's value printed as replay's; `settled yes` while a participant of a committed transaction still holds it.
pub fn close(
    images: &[u8],
    records: &[u8],
    settings: &[u8],
    sheet: &[u64],
    out: &mut [u8],
    at: usize,
) -> usize
    ensures { page out.new result
        ≡ closed (page out.old at) images.now records.now settings.now sheet.now }
{
    let a = report::text(out, at, b"end\n");
    let b = objects(images, sheet, out, a);
    let w = waiting(records, settings, out, b);
    let rest = at_rest(records);
    let c = answered(out, w, b"  at rest", rest);
    let over = settled(images, records);
    answered(out, c, b"  settled", over)
}
