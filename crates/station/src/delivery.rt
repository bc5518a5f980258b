// A delivery of a waiting message: at a replica, at a coordinator, or at a node that is off.
ghost use Rattle.std.specs.Prelude.{◌≡◌, List, ℕ, ◌<◌, length};
ghost use Rattle.numbers.specs.Sizes.{nodes};
ghost use Rattle.numbers.specs.Refusal.{lower};
ghost use Rattle.wire.specs.Decode.{check_of};
ghost use Rattle.pool.specs.Pool.{count, message_at};
ghost use Rattle.pool.specs.Pool.{check as checkPool};
ghost use Rattle.buffers.specs.Buffers.{all, told, own_number, images_size, records_size};
ghost use Rattle.station.specs.Messages.{replica_at, replica_images, replica_pool, coordinator_told, coordinator_records, coordinator_pool};
ghost use Rattle.station.specs.Messages.{lengths_number, blocked, delivery_told, delivery_images, delivery_records, delivery_pool};

use crate::messages::{
    exchange, hand, hand_over, is_for_replica, message_number, receiver, take_out, will_answer,
};
use buffers::{Answer, IMAGES, RECORDS, on, own_number, refused};
use numbers::{LONGEST_MESSAGE, both, either, lower, refuse};

// The number of the buffers, before any message is looked at.
fn buffers_number(images: usize, records: usize, pool: &[u8], own: &[u8]) -> u8
    ensures { result ≡ lower (lengths_number images records) (lower (checkPool pool.now) (own_number own.now)) }
{
    let short = refuse(
        numbers::LENGTH,
        either(images != IMAGES, records != RECORDS),
        0,
    );
    let waiting = numbers::number(pool::check(pool));
    lower(short, lower(waiting, own_number(own)))
}

// Whether a delivery that is kept has an answer for which there is no room.
fn is_blocked(images: &[u8], pool: &[u8], node: u8, k: u8, kept: bool) -> bool
    requires { (length images.now ≡ images_size) × (node < nodes) × (checkPool pool.now ≡ 0) × (k < count pool.now) }
    ensures { result ≡ blocked images.now pool.now node k kept }
{
    if both(kept, numbers::MOST_WAITING <= pool::count(pool)) {
        will_answer(images, pool, node, k)
    } else {
        false
    }
}

// At a replica: refused, or its image changed and its answer at the pool's end.
fn at_replica(images: &mut [u8], pool: &mut [u8], node: u8, k: u8, kept: bool) -> Answer
    requires { (length images.old ≡ images_size) × (node < nodes) × (checkPool pool.old ≡ 0) × (k < count pool.old) }
    ensures by_index { (R O : List ℕ) → result ≡ told 0 (replica_at (all images.old R pool.old O) node k kept) }
    ensures by_index_2 { (R O : List ℕ) → images.new ≡ replica_images (all images.old R pool.old O) node k kept }
    ensures by_index_3 { (R O : List ℕ) → pool.new ≡ replica_pool (all images.old R pool.old O) node k kept }
{
    if is_blocked(images, pool, node, k, kept) {
        return refused(numbers::POOL_FULL);
    }
    let mut b = [0u8; LONGEST_MESSAGE];
    let d = hand(images, pool, node, k, &mut b);
    if d.number != 0 {
        return refused(d.number);
    }
    let n = usize::from(d.length);
    exchange(pool, k, kept, &b[..n]);
    refused(0)
}

// At a coordinator: refused, also where its record is damaged, or its record changed.
fn at_coordinator(records: &mut [u8], pool: &mut [u8], node: u8, k: u8, kept: bool) -> Answer
    requires { (length records.old ≡ records_size) × (node < nodes) × (checkPool pool.old ≡ 0) × (k < count pool.old)
        × (check_of (message_at pool.old k) ≡ 0) }
    ensures by_index { (I O : List ℕ) → result ≡ coordinator_told (all I records.old pool.old O) node k kept }
    ensures by_index_2 { (I O : List ℕ) → records.new ≡ coordinator_records (all I records.old pool.old O) node k kept }
    ensures by_index_3 { (I O : List ℕ) → pool.new ≡ coordinator_pool (all I records.old pool.old O) node k kept }
{
    match hand_over(records, pool, node, k) {
        Ok(answer) => {
            take_out(pool, k, kept);
            Answer { number: 0, answer }
        }
        Err(refusal) => refused(u8::from(refusal)),
    }
}

// Delivers the k-th message, kept waiting or not; answers what it brought about at a coordinator.
// Ruled out: the neighbour's image changed; a kept message gone; an answer from a node that is off; an answer put before those that wait.
pub fn deliver(
    images: &mut [u8],
    records: &mut [u8],
    pool: &mut [u8],
    own: &[u8],
    k: u8,
    kept: bool,
) -> Answer
    ensures value { result ≡ delivery_told (all images.old records.old pool.old own.now) k kept }
    ensures images_after { images.new ≡ delivery_images (all images.old records.old pool.old own.now) k kept }
    ensures records_after { records.new ≡ delivery_records (all images.old records.old pool.old own.now) k kept }
    ensures pool_after { pool.new ≡ delivery_pool (all images.old records.old pool.old own.now) k kept }
{
    let number = buffers_number(images.len(), records.len(), pool, own);
    if number != 0 {
        return refused(number);
    }
    let wrong = message_number(pool, k);
    if wrong != 0 {
        return refused(wrong);
    }
    let node = receiver(pool, k);
    if !mask::has(on(own), node) {
        take_out(pool, k, kept);
        return refused(0);
    }
    if is_for_replica(pool, k) {
        return at_replica(images, pool, node, k, kept);
    }
    at_coordinator(records, pool, node, k, kept)
}
