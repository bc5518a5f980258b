// Whether the station is at rest, and whether it is settled.
ghost use Rattle.std.specs.Prelude.{◌≡◌, ◌&&◌, ◌<◌, length};
ghost use Rattle.numbers.specs.Sizes.{nodes};
ghost use Rattle.record.specs.Record.{record_of};
ghost use Rattle.buffers.specs.Buffers.{image_at, record_at, images_size, records_size};
ghost use Rattle.closing.specs.State.{idle_at, all_idle, at_rest, holds, holds_at, released, decided, settled_with, settled_at, all_settled, settled};

use coordinator::{COMMITTED, Coordinator, FINISHING, IDLE};
use numbers::{NODES_END, both, either};

// A node's record.
fn record_at(records: &[u8], node: u8) -> Coordinator
    requires { (length records.now ≡ records_size) × (node < nodes) }
    ensures { result ≡ record_of (record_at records.now node) }
{
    let start = record::SIZE * usize::from(node);
    record::read(&records[start..start + record::SIZE])
}

// Whether a node's coordinator is idle; whether every one is.
fn is_idle(records: &[u8], node: u8) -> bool
    requires { (length records.now ≡ records_size) × (node < nodes) }
    ensures { result ≡ idle_at records.now node }
{
    record_at(records, node).phase == IDLE
}

fn all_idle(records: &[u8]) -> bool
    requires { length records.now ≡ records_size }
    ensures { result ≡ all_idle records.now }
{
    (0..NODES_END).all(|i| is_idle(records, i))
}

// Whether the station is at rest. Ruled out: `yes` while the last coordinator votes; `yes` for records of another length.
pub(crate) fn at_rest(records: &[u8]) -> bool
    ensures { result ≡ at_rest records.now }
{
    records.len() == buffers::RECORDS && all_idle(records)
}

// Whether an image holds a transaction; whether a node's does.
fn holds(image: &[u8], owner: u8, serial: u32) -> bool
    ensures { result ≡ holds image.now owner serial }
{
    both(
        image::state(image, owner) == image::HELD,
        image::serial(image, owner) == serial,
    )
}

fn holds_at(images: &[u8], node: u8, owner: u8, serial: u32) -> bool
    requires { (length images.now ≡ images_size) × (node < nodes) }
    ensures { result ≡ holds_at images.now node owner serial }
{
    let start = image::SIZE * usize::from(node);
    holds(&images[start..start + image::SIZE], owner, serial)
}

// Whether no participant holds a transaction.
fn released(images: &[u8], participants: u16, owner: u8, serial: u32) -> bool
    requires { length images.now ≡ images_size }
    ensures { result ≡ released images.now participants owner serial }
{
    (0..NODES_END).all(|i| !both(
        mask::has(participants, i),
        holds_at(images, i, owner, serial),
    ))
}

// Whether a coordinator's transaction is committed, and not finished.
fn decided(c: Coordinator) -> bool
    ensures { result ≡ decided c }
{
    both(c.phase == FINISHING, c.outcome == COMMITTED)
}

// Whether an owner has no committed transaction that a participant holds; whether no owner has.
fn settled_at(images: &[u8], records: &[u8], owner: u8) -> bool
    requires { (length images.now ≡ images_size) × (length records.now ≡ records_size) × (owner < nodes) }
    ensures { result ≡ settled_at images.now records.now owner }
{
    let c = record_at(records, owner);
    let free = released(images, c.participants, owner, c.serial);
    either(!decided(c), free)
}

fn all_settled(images: &[u8], records: &[u8]) -> bool
    requires { (length images.now ≡ images_size) × (length records.now ≡ records_size) }
    ensures { result ≡ all_settled images.now records.now }
{
    (0..NODES_END).all(|i| settled_at(images, records, i))
}

// Whether the station is settled: no participant of a committed transaction holds it.
// Ruled out: `yes` while the last node holds one; a hold of the owner's earlier transaction taken for one of this.
pub(crate) fn settled(images: &[u8], records: &[u8]) -> bool
    ensures { result ≡ settled images.now records.now }
{
    if both(
        images.len() == buffers::IMAGES,
        records.len() == buffers::RECORDS,
    ) {
        all_settled(images, records)
    } else {
        false
    }
}
