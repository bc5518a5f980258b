// What the pool takes part in: a send of what is due, and a drop.
ghost use Rattle.std.specs.Prelude.{◌≡◌, length};
ghost use Rattle.buffers.specs.Buffers.{records_size};
ghost use Rattle.numbers.specs.Sizes.{longest_message};
ghost use Rattle.station.specs.Messages.{owed_at, owed_into, sending, send_told, send_pool, dropping, drop_told, drop_pool};

use buffers::{Answer, ends_number, on, refused, when_off};
use letters::Written;
use numbers::{LONGEST_MESSAGE, NODES_END, lower};

// Writes what is due where the node's record stands, 2 where that is damaged; 4 for what is no node.
fn write_at(records: &[u8], node: u8, to: u8, object: u8, out: &mut [u8]) -> Written
    requires { (length records.now ≡ records_size) × (length out.old ≡ longest_message) }
    ensures value { result ≡ owed_at records.now node to object }
    ensures out_after { out.new ≡ owed_into records.now node to object out.old }
{
    if node < NODES_END {
        let start = record::SIZE * usize::from(node);
        let end = start + record::SIZE;
        record_due::write_due(&records[start..end], node, to, object, out)
    } else {
        Written {
            number: numbers::STRANGER,
            length: 0,
        }
    }
}

// Sends what is due to a node. Ruled out: a message put at the pool's front; a message sent where nothing is due.
pub fn send(records: &[u8], pool: &mut [u8], own: &[u8], node: u8, to: u8, object: u8) -> Answer
    ensures value { result ≡ send_told (sending records.now pool.old own.now) node to object }
    ensures pool_after { pool.new ≡ send_pool (sending records.now pool.old own.now) node to object }
{
    let waiting = numbers::number(pool::check(pool));
    let number = lower(ends_number(records.len(), own), waiting);
    if number != 0 {
        return refused(number);
    }
    let mut b = [0u8; LONGEST_MESSAGE];
    let w = write_at(records, node, to, object, &mut b);
    if w.number == numbers::DAMAGED {
        return refused(numbers::DAMAGED);
    }
    if !mask::has(on(own), node) {
        return refused(when_off(w.number));
    }
    if w.number != 0 {
        return refused(w.number);
    }
    if numbers::MOST_WAITING <= pool::count(pool) {
        return refused(numbers::POOL_FULL);
    }
    let n = usize::from(w.length);
    if 0 < n {
        return refused(numbers::number(pool::add(pool, &b[..n])));
    }
    refused(0)
}

// Drops the k-th message. Ruled out: another message dropped; 0 where none waits.
pub fn drop(pool: &mut [u8], k: u8) -> Answer
    ensures value { result ≡ drop_told (dropping pool.old) k }
    ensures pool_after { pool.new ≡ drop_pool (dropping pool.old) k }
{
    refused(numbers::number(pool::remove(pool, k)))
}
