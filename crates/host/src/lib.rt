// What C calls, as a library of Rattle: numbers and byte slices, no heap, no state of their own. `host_c` exports each function senna_* under its name.
#![tactic(auto)]

pub mod images;
pub mod messages;
pub mod records;
pub mod replicas;
pub mod setup;
pub mod stations;

ghost use Rattle.std.specs.Prelude.{◌≡◌, cond, None};
ghost use Rattle.quorum.specs.declared.Kind.TheVariants.{Read, Write};
ghost use Rattle.quorum.specs.Quorum.{is_quorum};
ghost use Rattle.host.specs.Distances.{distances_of};
ghost use Rattle.host.specs.Nearest.{answer_of, nearest_answer};

use numbers::{EVERY_NODE, NODES, NODES_END};
use quorum::{Kind, Quorum};

// How many bytes thirteen distances take.
const DISTANCES: usize = 26;

// What a call for the nearest quorum answers: a number, and where it is 0 the set and its sum of distances.
#[repr(C)]
#[derive(Clone, Copy)]
pub struct Chosen {
    pub number: u8,
    pub mask: u16,
    pub sum: u32,
}

// Who wrote a copy last: owner and serial of the transaction, or the number of a refusal.
#[repr(C)]
#[derive(Clone, Copy)]
pub struct Author {
    pub number: u8,
    pub owner: u8,
    pub serial: u32,
}

// Thirteen distances of two bytes each, node 0 first.
fn distances_of(bytes: &[u8]) -> [u16; NODES]
    ensures { result ≡ distances_of bytes.now }
{
    std::array::from_fn(|i| octets::get_u16(bytes, 2 * i))
}

// A refused call's answer.
fn refused(number: u8) -> Chosen
    ensures { result ≡ answer_of number None }
{
    Chosen {
        number,
        mask: 0,
        sum: 0,
    }
}

// The nearest quorum of a kind for an asker, or the first refusal that fits.
fn nearest(kind: Kind, live: u16, distances: &[u8], asker: u8) -> Chosen
    ensures { result ≡ nearest_answer kind live distances.now asker }
{
    if distances.len() != DISTANCES {
        return refused(numbers::LENGTH);
    }
    if EVERY_NODE < live {
        return refused(numbers::STRANGER);
    }
    if NODES_END <= asker {
        return refused(numbers::STRANGER);
    }
    let d = distances_of(distances);
    let choice = quorum::nearest(kind, asker, live, &d);
    match choice {
        Some(Quorum { mask, sum }) => Chosen {
            number: 0,
            mask,
            sum,
        },
        None => refused(numbers::NO_QUORUM),
    }
}

// Whether the set contains a quorum of a kind, as 1 or 0.
fn is_quorum(kind: Kind, mask: u16) -> u8
    ensures { result ≡ cond (is_quorum kind mask) 1 0 }
{
    u8::from(quorum::is_quorum(kind, mask))
}

// Whether the set contains a read quorum: 1 or 0. Ruled out: 'yes' to two leaves of one hall; 'no' to the root alone.
pub fn senna_is_read_quorum(mask: u16) -> u8
    ensures { result ≡ cond (is_quorum Read mask) 1 0 }
{
    is_quorum(Kind::Read, mask)
}

// Whether the set contains a write quorum: 1 or 0. Ruled out: 'yes' without the root; 'no' to all thirteen nodes.
pub fn senna_is_write_quorum(mask: u16) -> u8
    ensures { result ≡ cond (is_quorum Write mask) 1 0 }
{
    is_quorum(Kind::Write, mask)
}

// The nearest read quorum within live, for an asker. Ruled out: 8 where live has one; a set's mask with another set's sum.
pub fn senna_nearest_read(live: u16, distances: &[u8], asker: u8) -> Chosen
    ensures { result ≡ nearest_answer Read live distances.now asker }
{
    nearest(Kind::Read, live, distances, asker)
}

// The nearest write quorum within live, for an asker. Ruled out: 8 before 1 where both fit; of equal sums a set without the asker where one has him.
pub fn senna_nearest_write(live: u16, distances: &[u8], asker: u8) -> Chosen
    ensures { result ≡ nearest_answer Write live distances.now asker }
{
    nearest(Kind::Write, live, distances, asker)
}
