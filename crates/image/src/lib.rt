// The stored image of a replica, in lent bytes: checked, made blank, read and changed in place.
// Bytes of any length are taken. An object or an owner that is not there reads as 0, and setting it does nothing.
#![tactic(auto)]

mod change;
mod fields;
mod read;
mod verify;
mod write;

pub use change::{add_reader, add_writer, blank, free, unlist};
use numbers::{NODES, NODES_END, OBJECTS, OBJECTS_END};
pub use read::{
    author, author_serial, holder, owner_of, readers, serial, stamp, state, value, version, writers,
};
pub use verify::check;
pub use write::{
    set_author, set_holder, set_readers, set_serial, set_stamp, set_state, set_value, set_version,
    set_writers,
};

// The copy of an object (document 01: tally). The value is the 64 bits of a signed number.
#[derive(Clone, Copy)]
pub struct Copy {
    pub value: u64,
    pub version: u32,
    pub holder: u8,
    pub readers: u16,
    pub writers: u16,
    // Who wrote last: the owner, and the serial of its transaction.
    pub author: u8,
    pub serial: u32,
}

// What is kept of an owner: its last serial, the state of that transaction, and its stamp.
#[derive(Clone, Copy)]
pub struct Owner {
    pub serial: u32,
    pub state: u8,
    pub stamp: u32,
}

// What a walk over the owners finds: whether each alone is in order, and the masks of those in states 1 and 2.
#[derive(Clone, Copy)]
struct Walk {
    ok: bool,
    listed: u16,
    held: u16,
}

// Sizes in bytes: a count, a copy, an owner.
const COUNT_SIZE: usize = 1;

const COPY_SIZE: usize = 22;

const OWNER_SIZE: usize = 9;

// Where the first copy, the second count and the first owner stand, and the size of an image.
const COPIES_PLACE: usize = COUNT_SIZE;

const OWNER_COUNT_PLACE: usize = COPIES_PLACE + COPY_SIZE * OBJECTS;

const OWNERS_PLACE: usize = OWNER_COUNT_PLACE + COUNT_SIZE;

pub const SIZE: usize = OWNERS_PLACE + OWNER_SIZE * NODES;

// The states of an owner.
pub const OVER: u8 = 0;

pub const LISTED: u8 = 1;

pub const HELD: u8 = 2;

pub const REFUSED: u8 = 3;

// A field: `items` items of `stride` bytes each from byte `base` on; in each the `width` bytes from byte `offset` on.
#[derive(Clone, Copy)]
pub struct Field {
    pub items: u8,
    pub base: usize,
    pub stride: usize,
    pub offset: usize,
    pub width: usize,
}

const OBJECT_COUNT: Field = Field {
    items: 1,
    base: 0,
    stride: COUNT_SIZE,
    offset: 0,
    width: COUNT_SIZE,
};

// A field of every copy, and one of every owner; each field says which bytes it has.
const OF_COPY: Field = Field {
    items: OBJECTS_END,
    base: COPIES_PLACE,
    stride: COPY_SIZE,
    offset: 0,
    width: 0,
};

const OF_OWNER: Field = Field {
    items: NODES_END,
    base: OWNERS_PLACE,
    stride: OWNER_SIZE,
    offset: 0,
    width: 0,
};

const VALUE: Field = Field {
    offset: 0,
    width: 8,
    ..OF_COPY
};

const VERSION: Field = Field {
    offset: 8,
    width: 4,
    ..OF_COPY
};

const HOLDER: Field = Field {
    offset: 12,
    width: 1,
    ..OF_COPY
};

const READERS: Field = Field {
    offset: 13,
    width: 2,
    ..OF_COPY
};

const WRITERS: Field = Field {
    offset: 15,
    width: 2,
    ..OF_COPY
};

const AUTHOR: Field = Field {
    offset: 17,
    width: 1,
    ..OF_COPY
};

const AUTHOR_SERIAL: Field = Field {
    offset: 18,
    width: 4,
    ..OF_COPY
};

// The two halves of an author's serial.
const AUTHOR_LOW: Field = Field {
    offset: 18,
    width: 2,
    ..OF_COPY
};

const AUTHOR_HIGH: Field = Field {
    offset: 20,
    width: 2,
    ..OF_COPY
};

const OWNER_COUNT: Field = Field {
    items: 1,
    base: OWNER_COUNT_PLACE,
    stride: COUNT_SIZE,
    offset: 0,
    width: COUNT_SIZE,
};

const SERIAL: Field = Field {
    offset: 0,
    width: 4,
    ..OF_OWNER
};

const STATE: Field = Field {
    offset: 4,
    width: 1,
    ..OF_OWNER
};

const STAMP: Field = Field {
    offset: 5,
    width: 4,
    ..OF_OWNER
};
