// The newest copies, and replay's values beside them.
ghost use Rattle.std.specs.Prelude.{◌≡◌, ◌<◌, length};
ghost use Rattle.buffers.specs.Buffers.{images_size};
ghost use Rattle.numbers.specs.Sizes.{nodes};
ghost use Rattle.report.specs.Page.{page, inks};
ghost use Rattle.closing.specs.Copies.{no_copy, copy_at, newer_of, newest_of, newest};
ghost use Rattle.closing.specs.Texts.{copy_texts, author_texts, object_texts, objects_texts};

use crate::Best;
use numbers::{NOBODY, NODES_END, OBJECTS_END, UNKNOWN, both};

// No copy.
const NONE: Best = Best {
    version: 0,
    value: 0,
    nodes: 0,
    author: NOBODY,
    serial: 0,
};

// A node's own copy.
fn copy_at(images: &[u8], object: u8, node: u8) -> Best
    requires { (length images.now ≡ images_size) × (node < nodes) }
    ensures { result ≡ copy_at images.now object node }
{
    let start = image::SIZE * usize::from(node);
    let image = &images[start..start + image::SIZE];
    Best {
        version: image::version(image, object),
        value: image::value(image, object),
        nodes: mask::single(node),
        author: image::author(image, object),
        serial: image::author_serial(image, object),
    }
}

// Of two copies the newer; of two as new the first, with the nodes of both.
fn newer(a: Best, b: Best) -> Best
    ensures { result ≡ newer_of a b }
{
    if a.version < b.version {
        return b;
    }
    if b.version == a.version {
        return Best {
            nodes: mask::join(a.nodes, b.nodes),
            ..a
        };
    }
    a
}

// The newest copy of an object among all nodes.
fn newest_copy(images: &[u8], object: u8) -> Best
    requires { length images.now ≡ images_size }
    ensures { result ≡ newest_of images.now object nodes }
{
    let mut b = NONE;
    for i in 0..NODES_END {
        b = newer(b, copy_at(images, object, i));
    }
    b
}

// The same; none where the images are of another length. Ruled out: the oldest copy; a node left out that has it too.
fn newest(images: &[u8], object: u8) -> Best
    ensures { result ≡ newest images.now object }
{
    if images.len() == buffers::IMAGES {
        newest_copy(images, object)
    } else {
        NONE
    }
}

// The newest copy of an object in words.
fn copy(out: &mut [u8], at: usize, t: u8, b: Best) -> usize
    ensures { page out.new result ≡ inks (page out.old at) (copy_texts t b) }
{
    let c = report::number(out, at, b"  object ", u64::from(t));
    let d = report::number(out, c, b" version ", u64::from(b.version));
    let e = report::value(out, d, b" value ", b.value);
    report::number(out, e, b" nodes ", u64::from(b.nodes))
}

// Who wrote it last, in words. Ruled out: an owner printed where nobody is; the serial before the owner.
fn by(out: &mut [u8], at: usize, owner: u8, serial: u32) -> usize
    ensures { page out.new result ≡ inks (page out.old at) (author_texts owner serial) }
{
    if owner == NOBODY {
        return report::text(out, at, b" by -");
    }
    if owner == UNKNOWN {
        return report::text(out, at, b" by ?");
    }
    let c = report::number(out, at, b" by ", u64::from(owner));
    report::number(out, c, b"/", u64::from(serial))
}

// The line of an object; none where no node has a version above 0 and replay's value is 0.
fn object(out: &mut [u8], at: usize, t: u8, b: Best, replayed: u64) -> usize
    ensures { page out.new result ≡ inks (page out.old at) (object_texts t b replayed) }
{
    if both(b.version == 0, replayed == 0) {
        return at;
    }
    let c = copy(out, at, t, b);
    let w = by(out, c, b.author, b.serial);
    let d = report::value(out, w, b" replay ", replayed);
    report::text(out, d, b"\n")
}

// The lines of all objects. Ruled out: the newest copy's value printed as replay's; a line left out.
pub(crate) fn objects(images: &[u8], sheet: &[u64], out: &mut [u8], at: usize) -> usize
    ensures { page out.new result ≡ inks (page out.old at) (objects_texts images.now sheet.now) }
{
    let mut a = at;
    for t in 0..OBJECTS_END {
        a = object(out, a, t, newest(images, t), replay::value(sheet, t));
    }
    a
}
