// A waiting message, lent onward from the middle of the pool.
ghost use Rattle.std.specs.Prelude.{◌≡◌, cond, List, ◌<◌, ltb, length};
ghost use Rattle.numbers.specs.Sizes.{nodes, longest_message};
ghost use Rattle.wire.specs.Decode.{kind_of, to_of, check_of};
ghost use Rattle.arrivals.specs.Receive.{for_replica};
ghost use Rattle.record.specs.Call.{told};
ghost use Rattle.record_arrive.specs.Call.{received_of as calledBy};
ghost use Rattle.replica.specs.Receive.{received_of, buffer_of, spoken};
ghost use Rattle.pool.specs.Pool.{check, count, message_at};
ghost use Rattle.buffers.specs.Buffers.{image_at, record_at, images_size, records_size};
ghost use Rattle.station.specs.Messages.{handed, images_handed, handed_over, answered_by, leaving};

use numbers::{Refusal, either};
use replica::Received;

// The number of a waiting message: 5 where none waits, 1 or 3 where what waits is no message.
pub(crate) fn message_number(pool: &[u8], k: u8) -> u8
    requires { check pool.now ≡ 0 }
    ensures { result ≡ cond (ltb k (count pool.now)) (check_of (message_at pool.now k)) 5 }
{
    if usize::from(k) < pool::count(pool) {
        let start = pool::place(k);
        let end = start + pool::length(pool, k);
        numbers::number(wire::check(&pool[start..end]))
    } else {
        numbers::OUT_OF_TURN
    }
}

// The node that it is for.
pub(crate) fn receiver(pool: &[u8], k: u8) -> u8
    requires { (check pool.now ≡ 0) × (k < count pool.now) }
    ensures { result ≡ to_of (message_at pool.now k) }
{
    let start = pool::place(k);
    let end = start + pool::length(pool, k);
    wire::to(&pool[start..end])
}

// Whether it is for that node's replica, and not for its coordinator.
pub(crate) fn is_for_replica(pool: &[u8], k: u8) -> bool
    requires { (check pool.now ≡ 0) × (k < count pool.now) }
    ensures { result ≡ for_replica (kind_of (message_at pool.now k)) }
{
    let start = pool::place(k);
    let end = start + pool::length(pool, k);
    let kind = wire::kind(&pool[start..end]);
    either(
        kind == wire::FETCH,
        either(kind == wire::ASK, kind == wire::OUTCOME),
    )
}

// Whether a replica will answer it.
pub(crate) fn will_answer(images: &[u8], pool: &[u8], node: u8, k: u8) -> bool
    requires { (length images.now ≡ images_size) × (node < nodes) × (check pool.now ≡ 0) × (k < count pool.now) }
    ensures { result ≡ spoken (handed longest_message images.now pool.now node k).answer }
{
    let first = image::SIZE * usize::from(node);
    let last = first + image::SIZE;
    let start = pool::place(k);
    let end = start + pool::length(pool, k);
    replica::answers(&images[first..last], node, &pool[start..end])
}

// Hands it to a replica, whose image is lent onward from the middle of the images.
pub(crate) fn hand(images: &mut [u8], pool: &[u8], node: u8, k: u8, answer: &mut [u8]) -> Received
    requires { (length images.old ≡ images_size) × (node < nodes) × (check pool.now ≡ 0) × (k < count pool.now) }
    ensures number { result ≡ received_of (handed (length answer.old) images.old pool.now node k) }
    ensures images { images.new ≡ images_handed (length answer.old) images.old pool.now node k }
    ensures buffer { answer.new ≡ buffer_of answer.old (image_at images.old node) node (message_at pool.now k) }
{
    let first = image::SIZE * usize::from(node);
    let last = first + image::SIZE;
    let start = pool::place(k);
    let end = start + pool::length(pool, k);
    replica::receive(&mut images[first..last], node, &pool[start..end], answer)
}

// Hands it to a coordinator, whose record is lent onward from the middle of the records.
pub(crate) fn hand_over(records: &mut [u8], pool: &[u8], node: u8, k: u8) -> Result<u64, Refusal>
    requires { (length records.old ≡ records_size) × (node < nodes) × (check pool.now ≡ 0) × (k < count pool.now) }
    ensures number { told result ≡ calledBy node (message_at pool.now k) (record_at records.old node) }
    ensures records { records.new ≡ handed_over records.old pool.now node k }
{
    let first = record::SIZE * usize::from(node);
    let last = first + record::SIZE;
    let start = pool::place(k);
    let end = start + pool::length(pool, k);
    record_arrive::receive(&mut records[first..last], node, &pool[start..end])
}

// It is gone, unless it is kept.
pub(crate) fn take_out(pool: &mut [u8], k: u8, kept: bool)
    requires { (check pool.old ≡ 0) × (k < count pool.old) }
    ensures { pool.new ≡ leaving pool.old k kept }
{
    if !kept {
        // A message that waits is never refused.
        let _ = pool::remove(pool, k);
    }
}

// And its answer, where there is one, stands at the end.
pub(crate) fn exchange(pool: &mut [u8], k: u8, kept: bool, answer: &[u8])
    requires { (check pool.old ≡ 0) × (k < count pool.old) }
    ensures { pool.new ≡ answered_by (leaving pool.old k kept) answer.now }
{
    take_out(pool, k, kept);
    if 0 < answer.len() {
        // Where there is no room, the answer is not kept: a delivery that would need it was refused before.
        let _ = pool::add(pool, answer);
    }
}
