// A field of an item, read and written at each width. Only these functions know where a field stands.
ghost use Rattle.std.specs.Prelude.{◌≡◌, length};
ghost use Rattle.image.specs.Field.{Near, place, field_of, with_field};
ghost use Rattle.image.specs.Pass.{Here};

use crate::Field;

// Where the field of item i starts in `len` bytes; at their end for an item that is not there.
fn place(len: usize, f: Field, i: u8) -> usize
    requires { Near f }
    ensures { result ≡ place f len i }
{
    if i < f.items {
        f.base + f.stride * usize::from(i) + f.offset
    } else {
        len
    }
}

pub(crate) fn get_u8(image: &[u8], f: Field, i: u8) -> u8
    requires { Near f × (f.width ≡ 1) }
    ensures { result ≡ field_of f image.now i }
{
    octets::get_u8(image, place(image.len(), f, i))
}

pub(crate) fn get_u16(image: &[u8], f: Field, i: u8) -> u16
    requires { Near f × (f.width ≡ 2) }
    ensures { result ≡ field_of f image.now i }
{
    octets::get_u16(image, place(image.len(), f, i))
}

pub(crate) fn get_u32(image: &[u8], f: Field, i: u8) -> u32
    requires { Near f × (f.width ≡ 4) }
    ensures { result ≡ field_of f image.now i }
{
    octets::get_u32(image, place(image.len(), f, i))
}

pub(crate) fn get_u64(image: &[u8], f: Field, i: u8) -> u64
    requires { Near f × (f.width ≡ 8) }
    ensures { result ≡ field_of f image.now i }
{
    octets::get_u64(image, place(image.len(), f, i))
}

pub(crate) fn put_u8(image: &mut [u8], f: Field, i: u8, v: u8)
    requires { Near f × (f.width ≡ 1) }
    ensures { image.new ≡ with_field f image.old i v }
{
    let at = place(image.len(), f, i);
    octets::put_u8(image, at, v);
}

pub(crate) fn put_u16(image: &mut [u8], f: Field, i: u8, v: u16)
    requires { Near f × (f.width ≡ 2) }
    ensures { image.new ≡ with_field f image.old i v }
{
    let at = place(image.len(), f, i);
    octets::put_u16(image, at, v);
}

pub(crate) fn put_u32(image: &mut [u8], f: Field, i: u8, v: u32)
    requires { Near f × (f.width ≡ 4) }
    ensures { image.new ≡ with_field f image.old i v }
{
    let at = place(image.len(), f, i);
    octets::put_u32(image, at, v);
}

pub(crate) fn put_u64(image: &mut [u8], f: Field, i: u8, v: u64)
    requires { Near f × (f.width ≡ 8) }
    ensures { image.new ≡ with_field f image.old i v }
{
    let at = place(image.len(), f, i);
    octets::put_u64(image, at, v);
}

// The same in bytes that have every item of the field, for an item that is there: no test is left.
pub(crate) fn here_u8(image: &[u8], f: Field, i: u8) -> u8
    requires { Here f (length image.now) i × (f.width ≡ 1) }
    ensures { result ≡ field_of f image.now i }
{
    let at = place(image.len(), f, i);
    image[at]
}

pub(crate) fn here_u16(image: &[u8], f: Field, i: u8) -> u16
    requires { Here f (length image.now) i × (f.width ≡ 2) }
    ensures { result ≡ field_of f image.now i }
{
    let at = place(image.len(), f, i);
    u16::from(image[at]) + 256 * u16::from(image[at + 1])
}

pub(crate) fn put_here_u8(image: &mut [u8], f: Field, i: u8, v: u8)
    requires { Here f (length image.old) i × (f.width ≡ 1) }
    ensures { image.new ≡ with_field f image.old i v }
{
    let at = place(image.len(), f, i);
    image[at] = v;
}

pub(crate) fn put_here_u16(image: &mut [u8], f: Field, i: u8, v: u16)
    requires { Here f (length image.old) i × (f.width ≡ 2) }
    ensures { image.new ≡ with_field f image.old i v }
{
    let at = place(image.len(), f, i);
    image[at] = (v % 256) as u8;
    image[at + 1] = (v / 256 % 256) as u8;
}
