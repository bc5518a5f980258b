// Stored images for C: checked, made blank, taken in from an older length (one, or a station's thirteen), and who wrote a copy last. Each function states
// the same equation as what it wraps.
ghost use Rattle.std.specs.Prelude.{◌≡◌};
ghost use Rattle.image.specs.Valid.{check};
ghost use Rattle.image.specs.Blank.{blank, blank_number};
ghost use Rattle.intake.specs.Take.{take_number, take_after};
ghost use Rattle.station_intake.specs.Convert.{convert_number, convert_after};
ghost use Rattle.host.specs.Images.{author_number, author_answer};

use crate::Author;
use numbers::{OBJECTS_END, Refusal};

// The number of an image. Ruled out: 0 for a holder whose state is not 2; 2 for an image of another length.
pub fn senna_check_image(image: &[u8]) -> u8
    ensures { result ≡ check image.now }
{
    numbers::number(image::check(image))
}

// Makes an image blank. Ruled out: a byte of a buffer of another length altered; holders of 0.
// The length is looked at ahead, so that it need not be kept for the number while the bytes are written.
#[tactic(auto, unfolding(image::specs::Blank::blank, image::specs::Blank::blank_as, image::specs::Blank::blank_number))]
pub fn senna_blank_image(image: &mut [u8]) -> u8
    ensures value { result ≡ blank_number image.old }
    ensures image_after { image.new ≡ blank image.old }
{
    if image.len() != image::SIZE {
        return u8::from(Refusal::Length);
    }
    numbers::number(image::blank(image))
}

// Takes an image of an older length in. Ruled out: an author unknown at version 0; a byte written where the older image is damaged.
pub fn senna_take_in(old: &[u8], image: &mut [u8]) -> u8
    ensures value { result ≡ take_number old.now image.old }
    ensures image_after { image.new ≡ take_after old.now image.old }
{
    numbers::number(intake::take_in(old, image))
}

// Takes a station's thirteen images of an older length in. Ruled out: the images before a damaged one written; 2 for twelve images.
pub fn senna_station_take_in(old: &[u8], images: &mut [u8]) -> u8
    ensures value { result ≡ convert_number old.now images.old }
    ensures images_after { images.new ≡ convert_after old.now images.old }
{
    numbers::number(station_intake::take_in_all(old, images))
}

// The number of asking who wrote an object's copy last.
fn author_number(image: &[u8], object: u8) -> u8
    ensures { result ≡ author_number image.now object }
{
    let number = numbers::number(image::check(image));
    if number == numbers::LENGTH {
        return numbers::LENGTH;
    }
    if number == numbers::DAMAGED {
        return numbers::DAMAGED;
    }
    if object < OBJECTS_END {
        0
    } else {
        numbers::NO_SUCH_OBJECT
    }
}

// Who wrote an object's copy last. Ruled out: the author of object 0 told for every object; an owner told of a damaged image.
pub fn senna_image_author(image: &[u8], object: u8) -> Author
    ensures { result ≡ author_answer image.now object }
{
    let number = author_number(image, object);
    if number != 0 {
        return Author {
            number,
            owner: 0,
            serial: 0,
        };
    }
    let owner = image::author(image, object);
    let serial = image::author_serial(image, object);
    Author {
        number: 0,
        owner,
        serial,
    }
}
