// Takes in a station's thirteen images of an older length: each is written as one of today's.
#![tactic(auto)]

ghost use Rattle.std.specs.Prelude.{◌≡◌, ◌*◌, length};
ghost use Rattle.numbers.specs.Sizes.{nodes};
ghost use Rattle.buffers.specs.Buffers.{images_size};
ghost use Rattle.station_intake.specs.Convert.{convert_number, convert_after};
ghost use Rattle.numbers.specs.Outcome.{number_of};
ghost use Rattle.station_intake.specs.Pass.{number_of as part_number, first_number, after_parts};

use buffers::IMAGES;
use numbers::{NODES, Refusal, either};

// Whether one older image may be taken in: it is, and the new one forgotten.
#[tactic(auto, unfolding(crate::specs::Pass::number_of))]
fn may_take_in(old: &[u8]) -> Result<(), Refusal>
    ensures { number_of result ≡ part_number old.now }
{
    let mut scratch = [0u8; image::SIZE];
    intake::take_in(old, &mut scratch)
}

// Whether all of thirteen parts of `size` bytes each may be; the first refusal of one.
fn may_take_each(old: &[u8], size: usize) -> Result<(), Refusal>
    requires { length old.now ≡ size * nodes }
    ensures { number_of result ≡ first_number size old.now nodes }
{
    for node in 0..NODES {
        let start = size * node;
        let end = start + size;
        may_take_in(&old[start..end])?;
    }
    Ok(())
}

// Takes each of the thirteen parts in to its node's image.
fn take_each(old: &[u8], size: usize, images: &mut [u8])
    requires { (length old.now ≡ size * nodes) × (length images.old ≡ images_size) }
    ensures { images.new ≡ after_parts size old.now nodes images.old }
{
    for n in 0..NODES {
        let start = size * n;
        let end = start + size;
        let to = image::SIZE * n;
        let to_end = to + image::SIZE;
        // What would refuse it was looked for in every part before.
        let _ = intake::take_in(&old[start..end], &mut images[to..to_end]);
    }
}

// Takes in a station's thirteen images of an older length: writes them into `images`, as thirteen of today's. Refused where `old` is not thirteen times an
// older length or `images` has not today's, and where one of the thirteen is damaged; then nothing is altered. Ruled out: the images before a damaged one
// written; a node that gets the image of the node behind it.
pub fn take_in_all(old: &[u8], images: &mut [u8]) -> Result<(), Refusal>
    ensures number { number_of result ≡ convert_number old.now images.old }
    ensures images { images.new ≡ convert_after old.now images.old }
{
    let size = old.len() / NODES;
    if either(size * NODES != old.len(), images.len() != IMAGES) {
        return Err(Refusal::Length);
    }
    may_take_each(old, size)?;
    take_each(old, size, images);
    Ok(())
}
