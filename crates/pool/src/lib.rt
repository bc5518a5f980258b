// The pool (document 01): the messages that wait, in lent bytes: a count, then 128 slots of a length and 128 bytes.
#![tactic(auto)]

ghost use Rattle.std.specs.Prelude.{◌≡◌, ◌+◌, ◌≤◌, ◌<◌, length, IfOk};
ghost use Rattle.numbers.specs.Sizes.{longest_message, most_waiting};
ghost use Rattle.numbers.specs.Outcome.{number_of};
ghost use Rattle.pool.specs.Pool.{message_place, count, length_at, check, slot_place, slot_size, pool_size};
ghost use Rattle.pool.specs.Change.{stored, add_number, add_after, moved, remove_number, remove_after, blank_number, blank_after};

use numbers::{LONGEST_MESSAGE, MOST_WAITING, Refusal};

// Sizes in bytes: a slot, the whole pool.
const SLOT: usize = 1 + LONGEST_MESSAGE;

pub const SIZE: usize = 1 + SLOT * MOST_WAITING;

// Where a slot starts.
fn slot_place(k: usize) -> usize
    requires { k < 256 }
    ensures { result ≡ slot_place k }
{
    1 + SLOT * k
}

// How many messages wait. Ruled out: one more than wait; the length of the first message.
pub fn count(pool: &[u8]) -> usize
    ensures { (result ≡ count pool.now) × (result < 256) }
{
    usize::from(octets::get_u8(pool, 0))
}

// Where the k-th message starts. Ruled out: the place of its length; the place of the message after it.
pub fn place(k: u8) -> usize
    ensures { result ≡ message_place k }
{
    slot_place(usize::from(k)) + 1
}

// How long the k-th message is; 0 where its length is impossible. Ruled out: the length of the message after it; a length above 128.
#[tactic(auto, unfolding(crate::specs::Pool::length_at))]
pub fn length(pool: &[u8], k: u8) -> usize
    ensures { result ≡ length_at pool.now k }
{
    let n = usize::from(octets::get_u8(pool, slot_place(usize::from(k))));
    if n <= LONGEST_MESSAGE { n } else { 0 }
}

// Whether bytes are a pool: refused for another length, and for an impossible count. Ruled out: 'damaged' for bytes of another length; a full pool
// refused.
#[tactic(auto, unfolding(crate::specs::Pool::check))]
pub fn check(pool: &[u8]) -> Result<(), Refusal>
    ensures { number_of result ≡ check pool.now }
{
    if pool.len() != SIZE {
        return Err(Refusal::Length);
    }
    if MOST_WAITING < count(pool) {
        return Err(Refusal::Damaged);
    }
    Ok(())
}

// Stores a message's length and bytes in the slot that starts at a place.
#[tactic(auto, unfolding(crate::specs::Change::stored))]
fn store(pool: &mut [u8], at: usize, message: &[u8])
    requires { (length message.now ≤ longest_message) × (at + slot_size ≤ length pool.old) }
    ensures { pool.new ≡ stored pool.old at message.now }
{
    let n = message.len();
    pool[at] = n as u8;
    pool[at + 1..at + 1 + n].copy_from_slice(message);
}

// Whether a message of a size may be added.
#[tactic(auto, unfolding(crate::specs::Change::add_number, crate::specs::Change::add_refusals, crate::specs::Pool::check))]
fn may_add(pool: &[u8], size: usize) -> Result<(), Refusal>
    ensures number { number_of result ≡ add_number pool.now size }
    ensures room { IfOk result (λ _. (length pool.now ≡ pool_size) × (size ≤ longest_message) × (count pool.now < most_waiting)) }
{
    if pool.len() != SIZE || LONGEST_MESSAGE < size {
        return Err(Refusal::Length);
    }
    check(pool)?;
    if MOST_WAITING <= count(pool) {
        return Err(Refusal::PoolFull);
    }
    Ok(())
}

// Puts a message at the pool's end. Ruled out: it goes to the front; the slot's old bytes stay and only the count rises.
#[tactic(auto, unfolding(crate::specs::Change::add_after))]
pub fn add(pool: &mut [u8], message: &[u8]) -> Result<(), Refusal>
    ensures number { number_of result ≡ add_number pool.old (length message.now) }
    ensures pool { pool.new ≡ add_after pool.old message.now }
{
    may_add(pool, message.len())?;
    let n = count(pool);
    store(pool, slot_place(n), message);
    octets::put_u8(pool, 0, (n + 1) as u8);
    Ok(())
}

// Moves n bytes one slot down, to a place.
#[tactic(auto, unfolding(crate::specs::Change::moved))]
fn move_down(pool: &mut [u8], at: usize, n: usize)
    requires { at + n + slot_size ≤ length pool.old }
    ensures { pool.new ≡ moved pool.old at n }
{
    let from = at + SLOT;
    pool.copy_within(from..from + n, at);
}

// Whether a k-th message may be removed.
#[tactic(auto, unfolding(crate::specs::Change::remove_number, crate::specs::Change::remove_refusals, crate::specs::Pool::check))]
fn may_remove(pool: &[u8], k: u8) -> Result<(), Refusal>
    ensures number { number_of result ≡ remove_number pool.now k }
    ensures there { IfOk result (λ _. (length pool.now ≡ pool_size) × (k < count pool.now) × (count pool.now ≤ most_waiting)) }
{
    check(pool)?;
    if count(pool) <= usize::from(k) {
        return Err(Refusal::OutOfTurn);
    }
    Ok(())
}

// Removes the k-th message. Ruled out: its neighbour goes; the order of those behind it changes; the count stays.
#[tactic(auto, unfolding(crate::specs::Change::remove_after))]
pub fn remove(pool: &mut [u8], k: u8) -> Result<(), Refusal>
    ensures number { number_of result ≡ remove_number pool.old k }
    ensures pool { pool.new ≡ remove_after pool.old k }
{
    may_remove(pool, k)?;
    let last = count(pool) - 1;
    let i = usize::from(k);
    move_down(pool, slot_place(i), SLOT * (last - i));
    octets::put_u8(pool, 0, last as u8);
    Ok(())
}

// Makes a pool in which nothing waits: all zeros. Ruled out: a byte left as it was; a byte written where the length is another.
#[tactic(auto, unfolding(crate::specs::Change::blank, crate::specs::Change::blank_number, crate::specs::Change::blank_after))]
pub fn blank(pool: &mut [u8]) -> Result<(), Refusal>
    ensures number { number_of result ≡ blank_number pool.old }
    ensures pool { pool.new ≡ blank_after pool.old }
{
    if pool.len() != SIZE {
        return Err(Refusal::Length);
    }
    parts::zero(pool);
    Ok(())
}
