// How a listed ask is judged, and which rivals a yes names.
ghost use Rattle.std.specs.Prelude.{◌≡◌};
ghost use Rattle.wire.specs.Decode.{decode};
ghost use Rattle.judge.specs.Judge.{other_holds, newer, rivals_at, older_in, older_among, verdict_of, named, serials_of};
ghost use Rattle.judge.specs.Weighing.{barred, Weighs};

use crate::{Verdict, Weighed};
use numbers::{NODES, both, either};

// Another than the owner o holds the entry's object.
fn other_holds(image: &[u8], o: u8, e: wire::Entry) -> bool
    ensures { result ≡ other_holds image.now o e }
{
    let h = image::holder(image, e.object);
    both(h != numbers::NOBODY, h != o)
}

// The copy here has a higher version than the entry.
fn is_newer(image: &[u8], e: wire::Entry) -> bool
    ensures { result ≡ newer image.now e }
{
    e.version < image::version(image, e.object)
}

// Either of the two.
fn bars(image: &[u8], o: u8, e: wire::Entry) -> bool
    ensures { result ≡ barred image.now o e }
{
    either(other_holds(image, o, e), is_newer(image, e))
}

// The rivals at an entry: only at equal versions, a read's the writers, a write's readers and writers.
fn rivals_at(image: &[u8], e: wire::Entry) -> u16
    ensures { result ≡ rivals_at image.now e }
{
    let w = image::writers(image, e.object);
    if image::version(image, e.object) != e.version {
        return 0;
    }
    if e.mode == 0 {
        w
    } else {
        mask::join(image::readers(image, e.object), w)
    }
}

// One pass over an ask's entries: whether one of them bars a yes, and the rivals as a mask, never the owner.
fn weigh(image: &[u8], message: &[u8]) -> Weighed
    ensures { Weighs image.now (decode message.now) result }
{
    let o = wire::owner(message);
    let n = wire::entries(message);
    let mut barred = false;
    let mut found = 0;
    for i in 0..n {
        let e = wire::nth_entry(message, i);
        barred = either(barred, bars(image, o, e));
        found = mask::join(found, rivals_at(image, e));
    }
    let rivals = mask::without(found, mask::single(o));
    Weighed { barred, rivals }
}

// Owner r is among the rivals and older than owner o, by the stored stamps.
fn older_in(image: &[u8], rivals: u16, o: u8, r: u8) -> bool
    ensures { result ≡ older_in image.now rivals o r }
{
    let mine = image::stamp(image, o);
    let its = image::stamp(image, r);
    both(mask::has(rivals, r), age::is_older(its, r, mine, o))
}

// The same of some owner.
fn older_among(image: &[u8], rivals: u16, o: u8) -> bool
    ensures { result ≡ older_among image.now rivals o }
{
    if rivals == 0 {
        return false;
    }
    let mut found = false;
    for r in 0..numbers::NODES_END {
        found = either(found, older_in(image, rivals, o, r));
    }
    found
}

// An ask judged: the vote is no if an entry bars a yes or a rival is older.
// Ruled out: a no to everything; a yes while another holds an object that is asked for.
pub fn judged(image: &[u8], message: &[u8]) -> Verdict
    ensures { result ≡ verdict_of image.now (decode message.now) }
{
    let o = wire::owner(message);
    let w = weigh(image, message);
    let rivals = w.rivals;
    let no = either(w.barred, older_among(image, rivals, o));
    Verdict { no, rivals }
}

// The serial under which owner o is named: its last one here if it is a rival, else 0.
fn named(image: &[u8], rivals: u16, o: u8) -> u32
    ensures { result ≡ named image.now rivals o }
{
    if mask::has(rivals, o) {
        image::serial(image, o)
    } else {
        0
    }
}

// The serials of the rivals, by owner.
// Ruled out: a serial for an owner that is no rival; the serials of only the first rival.
pub fn serials_of(image: &[u8], rivals: u16) -> [u32; NODES]
    ensures { result ≡ serials_of image.now rivals }
{
    if rivals == 0 {
        return [0u32; NODES];
    }
    let mut serials = [0u32; NODES];
    for o in 0..numbers::NODES_END {
        serials[usize::from(o)] = named(image, rivals, o);
    }
    serials
}
