// Stored images: `host::images`, exported.
ghost use Rattle.std.specs.Prelude.{◌≡◌};
ghost use Rattle.image.specs.Valid.{check};
ghost use Rattle.image.specs.Blank.{blank, blank_number};
ghost use Rattle.intake.specs.Take.{take_number, take_after};
ghost use Rattle.station_intake.specs.Convert.{convert_number, convert_after};
ghost use Rattle.host.specs.Images.{author_answer};

use host::Author;

#[unsafe(no_mangle)]
pub extern "C" fn senna_check_image(image: &[u8]) -> u8
    ensures { result ≡ check image.now }
{
    host::images::senna_check_image(image)
}

#[unsafe(no_mangle)]
pub extern "C" fn senna_blank_image(image: &mut [u8]) -> u8
    ensures value { result ≡ blank_number image.old }
    ensures image_after { image.new ≡ blank image.old }
{
    host::images::senna_blank_image(image)
}

#[unsafe(no_mangle)]
pub extern "C" fn senna_take_in(old: &[u8], image: &mut [u8]) -> u8
    ensures value { result ≡ take_number old.now image.old }
    ensures image_after { image.new ≡ take_after old.now image.old }
{
    host::images::senna_take_in(old, image)
}

#[unsafe(no_mangle)]
pub extern "C" fn senna_station_take_in(old: &[u8], images: &mut [u8]) -> u8
    ensures value { result ≡ convert_number old.now images.old }
    ensures images_after { images.new ≡ convert_after old.now images.old }
{
    host::images::senna_station_take_in(old, images)
}

#[unsafe(no_mangle)]
pub extern "C" fn senna_image_author(image: &[u8], object: u8) -> Author
    ensures { result ≡ author_answer image.now object }
{
    host::images::senna_image_author(image, object)
}
