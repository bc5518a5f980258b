// What an older image has: document 01's layout, and 2.5's author, at another width of the copies and another number of them.
ghost use Rattle.std.specs.Prelude.{◌≡◌, ◌+◌, ◌*◌, ◌<◌};
ghost use Rattle.numbers.specs.Sizes.{nodes};
ghost use Rattle.image.specs.Layout.{copies_place, owners_place, owner_size};
ghost use Rattle.image.specs.Valid.{counts_ok};
ghost use Rattle.intake.specs.Take.{author_at, copy_as, owner_as};
ghost use Rattle.intake.specs.Pass.{shape_of, Fits};

use crate::Older;
use image::{Copy, Owner};
use numbers::{NOBODY, NODES_END, UNKNOWN, both};

// Sizes in bytes: a count, and an owner.
const COUNT_SIZE: usize = 1;

const OWNER_SIZE: usize = 9;

// Where the fields stand in a copy after its value, and in an owner after its serial.
const VERSION: usize = 8;

const HOLDER: usize = 12;

const READERS: usize = 13;

const WRITERS: usize = 15;

const AUTHOR: usize = 17;

const AUTHOR_SERIAL: usize = 18;

const STATE: usize = 4;

const STAMP: usize = 5;

// Where the copy of object t starts, and where the owners' count stands: after the last of them.
fn copy_place(s: Older, t: u8) -> usize
    requires { Fits s }
    ensures { (result ≡ copies_place + s.width * t) × (result < 65536) }
{
    COUNT_SIZE + s.width * usize::from(t)
}

// Where what is kept of owner o starts.
fn owner_place(s: Older, o: u8) -> usize
    requires { Fits s }
    ensures { (result ≡ owners_place (shape_of s) + owner_size * o) × (result < 131072) }
{
    copy_place(s, s.objects) + COUNT_SIZE + OWNER_SIZE * usize::from(o)
}

// The two counts are right.
pub(crate) fn counts_ok(old: &[u8], s: Older) -> bool
    requires { Fits s }
    ensures { result ≡ counts_ok (shape_of s) old.now }
{
    both(
        octets::get_u8(old, 0) == s.objects,
        octets::get_u8(old, copy_place(s, s.objects)) == NODES_END,
    )
}

// Whom a copy without an author gets for one: nobody where none wrote, else unknown.
fn author_at(version: u32) -> u8
    ensures { result ≡ author_at version }
{
    if version == 0 { NOBODY } else { UNKNOWN }
}

// The author's owner in the copy of object t.
fn old_author(old: &[u8], s: Older, t: u8) -> u8
    requires { Fits s × (t < s.objects) }
    ensures { result ≡ (copy_as (shape_of s) old.now t).author }
{
    let at = copy_place(s, t);
    if AUTHOR < s.width {
        return octets::get_u8(old, at + AUTHOR);
    }
    author_at(octets::get_u32(old, at + VERSION))
}

// The author's serial there.
fn old_author_serial(old: &[u8], s: Older, t: u8) -> u32
    requires { Fits s × (t < s.objects) }
    ensures { result ≡ (copy_as (shape_of s) old.now t).serial }
{
    if AUTHOR < s.width {
        return octets::get_u32(old, copy_place(s, t) + AUTHOR_SERIAL);
    }
    0
}

// The copy of object t.
pub(crate) fn old_copy(old: &[u8], s: Older, t: u8) -> Copy
    requires { Fits s × (t < s.objects) }
    ensures { result ≡ copy_as (shape_of s) old.now t }
{
    let at = copy_place(s, t);
    Copy {
        value: octets::get_u64(old, at),
        version: octets::get_u32(old, at + VERSION),
        holder: octets::get_u8(old, at + HOLDER),
        readers: octets::get_u16(old, at + READERS),
        writers: octets::get_u16(old, at + WRITERS),
        author: old_author(old, s, t),
        serial: old_author_serial(old, s, t),
    }
}

// What is kept of owner o.
pub(crate) fn old_owner(old: &[u8], s: Older, o: u8) -> Owner
    requires { Fits s × (o < nodes) }
    ensures { result ≡ owner_as (shape_of s) old.now o }
{
    let at = owner_place(s, o);
    Owner {
        serial: octets::get_u32(old, at),
        state: octets::get_u8(old, at + STATE),
        stamp: octets::get_u32(old, at + STAMP),
    }
}
