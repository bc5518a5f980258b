// The fields of an image, read in place. An object above 127 or an owner above 12 reads as 0, as do bytes that are not there.
ghost use Rattle.std.specs.Prelude.{◌≡◌};
ghost use Rattle.image.specs.Layout.{owner_of};
ghost use Rattle.image.specs.Layout.{value, version, holder, readers, writers, author, author_serial, serial, state, stamp};

use crate::fields::{get_u8, get_u16, get_u32, get_u64};
use crate::{
    AUTHOR, AUTHOR_SERIAL, HOLDER, Owner, READERS, SERIAL, STAMP, STATE, VALUE, VERSION, WRITERS,
};

// Each field of object t rules out, among others: the same field of the next object; the field beside it.
pub fn value(image: &[u8], t: u8) -> u64
    ensures { result ≡ value image.now t }
{
    get_u64(image, VALUE, t)
}

pub fn version(image: &[u8], t: u8) -> u32
    ensures { result ≡ version image.now t }
{
    get_u32(image, VERSION, t)
}

pub fn holder(image: &[u8], t: u8) -> u8
    ensures { result ≡ holder image.now t }
{
    get_u8(image, HOLDER, t)
}

pub fn readers(image: &[u8], t: u8) -> u16
    ensures { result ≡ readers image.now t }
{
    get_u16(image, READERS, t)
}

pub fn writers(image: &[u8], t: u8) -> u16
    ensures { result ≡ writers image.now t }
{
    get_u16(image, WRITERS, t)
}

// The author of object t's copy: the owner of the transaction that wrote it last, 254 where that is not known, 255 for none; and its serial.
pub fn author(image: &[u8], t: u8) -> u8
    ensures { result ≡ author image.now t }
{
    get_u8(image, AUTHOR, t)
}

pub fn author_serial(image: &[u8], t: u8) -> u32
    ensures { result ≡ author_serial image.now t }
{
    get_u32(image, AUTHOR_SERIAL, t)
}

// Each field of owner o rules out, among others: the same field of the next owner; the field beside it.
pub fn serial(image: &[u8], o: u8) -> u32
    ensures { result ≡ serial image.now o }
{
    get_u32(image, SERIAL, o)
}

pub fn state(image: &[u8], o: u8) -> u8
    ensures { result ≡ state image.now o }
{
    get_u8(image, STATE, o)
}

pub fn stamp(image: &[u8], o: u8) -> u32
    ensures { result ≡ stamp image.now o }
{
    get_u32(image, STAMP, o)
}

// What is kept of owner o. Ruled out: serial and stamp the other way round; the owner after it.
pub fn owner_of(image: &[u8], o: u8) -> Owner
    ensures { result ≡ owner_of image.now o }
{
    Owner {
        serial: serial(image, o),
        state: state(image, o),
        stamp: stamp(image, o),
    }
}
