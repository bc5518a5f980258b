// The fields of an image, set in place. An object above 127 or an owner above 12 is not there: setting it does nothing.
ghost use Rattle.std.specs.Prelude.{◌≡◌};
ghost use Rattle.image.specs.Change.{with_value, with_version, with_holder, with_readers, with_writers, with_author, with_serial, with_state, with_stamp};

use crate::fields::{put_u8, put_u16, put_u32, put_u64};
use crate::{
    AUTHOR, AUTHOR_SERIAL, HOLDER, READERS, SERIAL, STAMP, STATE, VALUE, VERSION, WRITERS,
};

// Each setter of object t rules out, among others: a byte of the field beside it altered; the same field of the next object set too.
pub fn set_value(image: &mut [u8], t: u8, v: u64)
    ensures { image.new ≡ with_value image.old t v }
{
    put_u64(image, VALUE, t, v);
}

pub fn set_version(image: &mut [u8], t: u8, v: u32)
    ensures { image.new ≡ with_version image.old t v }
{
    put_u32(image, VERSION, t, v);
}

pub fn set_holder(image: &mut [u8], t: u8, h: u8)
    ensures { image.new ≡ with_holder image.old t h }
{
    put_u8(image, HOLDER, t, h);
}

pub fn set_readers(image: &mut [u8], t: u8, m: u16)
    ensures { image.new ≡ with_readers image.old t m }
{
    put_u16(image, READERS, t, m);
}

pub fn set_writers(image: &mut [u8], t: u8, m: u16)
    ensures { image.new ≡ with_writers image.old t m }
{
    put_u16(image, WRITERS, t, m);
}

// The author of object t's copy. Ruled out: the holder set in its place; the version written for its serial.
pub fn set_author(image: &mut [u8], t: u8, o: u8, n: u32)
    ensures { image.new ≡ with_author image.old t o n }
{
    put_u8(image, AUTHOR, t, o);
    put_u32(image, AUTHOR_SERIAL, t, n);
}

// Each setter of owner o rules out, among others: the owner after it set too; stamp and serial taken for each other.
pub fn set_serial(image: &mut [u8], o: u8, n: u32)
    ensures { image.new ≡ with_serial image.old o n }
{
    put_u32(image, SERIAL, o, n);
}

pub fn set_state(image: &mut [u8], o: u8, n: u8)
    ensures { image.new ≡ with_state image.old o n }
{
    put_u8(image, STATE, o, n);
}

pub fn set_stamp(image: &mut [u8], o: u8, n: u32)
    ensures { image.new ≡ with_stamp image.old o n }
{
    put_u32(image, STAMP, o, n);
}
