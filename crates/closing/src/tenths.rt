// The tenths that wait at each node that has a table of classes.
ghost use Rattle.std.specs.Prelude.{◌≡◌, ◌<◌, length};
ghost use Rattle.numbers.specs.Sizes.{nodes};
ghost use Rattle.classes.specs.Classes.{most_classes};
ghost use Rattle.buffers.specs.Buffers.{records_size, record_at};
ghost use Rattle.service_calls.specs.Lent.{all_settings, settings_at};
ghost use Rattle.report.specs.Page.{page, inks};
ghost use Rattle.report.specs.Each.{each_from};
ghost use Rattle.closing.specs.Texts.{class_texts, nth_class_texts, node_texts, nth_node_texts, waiting_texts};

use numbers::NODES_END;
use record::Called;

const CLASSES_END: u8 = 8;

// The tenths of a class; nothing where the table does not have it.
fn class(out: &mut [u8], at: usize, w: Called) -> usize
    ensures { page out.new result ≡ inks (page out.old at) (class_texts w) }
{
    if w.number != 0 {
        return at;
    }
    report::number(out, at, b" ", w.answer)
}

// Those of all classes.
fn classes(bytes: &[u8], settings: &[u8], out: &mut [u8], at: usize) -> usize
    ensures { page out.new result
        ≡ inks (page out.old at) (each_from (nth_class_texts bytes.now settings.now) most_classes 0) }
{
    let mut a = at;
    for i in 0..CLASSES_END {
        a = class(out, a, frontend::waiting(bytes, settings, i));
    }
    a
}

// The line of a node.
fn node(bytes: &[u8], settings: &[u8], out: &mut [u8], at: usize, n: u8) -> usize
    ensures { page out.new result ≡ inks (page out.old at) (node_texts bytes.now settings.now n) }
{
    let first = frontend::waiting(bytes, settings, 0);
    if first.number != 0 {
        return at;
    }
    let a = report::number(out, at, b"  waiting ", u64::from(n));
    let b = classes(bytes, settings, out, a);
    report::text(out, b, b"\n")
}

fn node_at(records: &[u8], settings: &[u8], out: &mut [u8], at: usize, n: u8) -> usize
    requires { (length records.now ≡ records_size) × ((length settings.now ≡ all_settings) × (n < nodes)) }
    ensures { page out.new result ≡ inks (page out.old at) (nth_node_texts records.now settings.now n) }
{
    let a = record::SIZE * usize::from(n);
    let b = a + record::SIZE;
    let c = settings::SETTINGS * usize::from(n);
    let d = c + settings::SETTINGS;
    node(&records[a..b], &settings[c..d], out, at, n)
}

// The lines of all nodes.
fn lines(records: &[u8], settings: &[u8], out: &mut [u8], at: usize) -> usize
    requires { (length records.now ≡ records_size) × (length settings.now ≡ all_settings) }
    ensures { page out.new result
        ≡ inks (page out.old at) (each_from (nth_node_texts records.now settings.now) nodes 0) }
{
    let mut a = at;
    for n in 0..NODES_END {
        a = node_at(records, settings, out, a, n);
    }
    a
}

// The same; nothing for buffers of another length. Ruled out: the tenths that a batch under way leaves over; a line for a node without a table.
pub(crate) fn waiting(records: &[u8], settings: &[u8], out: &mut [u8], at: usize) -> usize
    ensures { page out.new result ≡ inks (page out.old at) (waiting_texts records.now settings.now) }
{
    if records.len() != buffers::RECORDS {
        return at;
    }
    if settings.len() != service_calls::SETTINGS {
        return at;
    }
    lines(records, settings, out, at)
}
