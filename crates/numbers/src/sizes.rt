// How many there are of everything, and the highest numbers: each said here and nowhere else.

// The nodes (document 01: controllers 0 to 12); the same as the first number that names none, and all of them as a mask.
pub const NODES: usize = 13;

pub const NODES_END: u8 = NODES as u8;

pub const EVERY_NODE: u16 = 8191;

// Stands where a node could stand and there is none.
pub const NOBODY: u8 = 255;

// Stands where an author could stand whom an older image did not keep.
pub const UNKNOWN: u8 = 254;

// The objects (document 02, 2.6: tallies 0 to 127), and the same as the first number that names none.
pub const OBJECTS: usize = 128;

pub const OBJECTS_END: u8 = OBJECTS as u8;

// How many objects one transaction may open.
pub const MOST_OPEN: usize = 8;

// The highest serial, timestamp and version.
pub const HIGHEST: u32 = 4294967295;

// A message's fewest and most bytes, and how many messages may wait.
pub const SHORTEST_MESSAGE: usize = 15;

pub const LONGEST_MESSAGE: usize = 128;

pub const MOST_WAITING: usize = 128;
