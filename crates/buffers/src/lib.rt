// The four lent buffers of a station (the images, the records, the pool, and which nodes are on): their sizes, the numbers of the buffers themselves,
// and what a step answers. For the crates that take a station's steps.
#![tactic(auto)]

ghost use Rattle.std.specs.Prelude.{◌≡◌};
ghost use Rattle.steps.specs.Step.{when_off};
ghost use Rattle.buffers.specs.Buffers.{on_of, own_number, ends_first, answer_with};

use numbers::{EVERY_NODE, either, refuse};

// What a step answers: its number, and its answer (0 where there is none).
#[repr(C)]
#[derive(Clone, Copy)]
pub struct Answer {
    pub number: u8,
    pub answer: u64,
}

// The sizes of the buffers in bytes: thirteen images, thirteen records, the mask of the nodes that are on.
pub const IMAGES: usize = image::SIZE * numbers::NODES;

pub const RECORDS: usize = record::SIZE * numbers::NODES;

pub const OWN: usize = 2;

// A step that answers its number alone, 0 where it is taken. Ruled out: another number; an answer beside it.
pub fn refused(number: u8) -> Answer
    ensures { result ≡ answer_with number 0 }
{
    Answer { number, answer: 0 }
}

// The nodes that are on. Ruled out: the bytes in the other order; the nodes that are off.
pub fn on(own: &[u8]) -> u16
    ensures { result ≡ on_of own.now }
{
    octets::get_u16(own, 0)
}

// The number of a host call or a send at a node that is off. Ruled out: 5 for a node above 12; 5 before 10 at begin.
pub fn when_off(number: u8) -> u8
    ensures { result ≡ when_off number }
{
    if numbers::either(number == numbers::STRANGER, number == numbers::BUSY) {
        number
    } else {
        numbers::OUT_OF_TURN
    }
}

// The number of the records' length and of who is on, but for the clauses of a record. Ruled out: 2 for records of another length; 0 for a mask that
// names what is no node.
pub fn ends_number(records: usize, own: &[u8]) -> u8
    ensures { result ≡ ends_first records own.now }
{
    let wide = refuse(numbers::DAMAGED, EVERY_NODE < on(own), 0);
    refuse(
        numbers::LENGTH,
        either(records != RECORDS, own.len() != OWN),
        wide,
    )
}

// The number of who is on: 1 another length, 2 a mask that names what is no node. Ruled out: 2 for another length; 0 for the mask 8192.
pub fn own_number(own: &[u8]) -> u8
    ensures { result ≡ own_number own.now }
{
    let bad = refuse(numbers::DAMAGED, EVERY_NODE < on(own), 0);
    refuse(numbers::LENGTH, own.len() != OWN, bad)
}
