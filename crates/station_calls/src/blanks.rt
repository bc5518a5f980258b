// The maker of a blank station.
ghost use Rattle.std.specs.Prelude.{◌≡◌, length};
ghost use Rattle.numbers.specs.Sizes.{nodes};
ghost use Rattle.buffers.specs.Buffers.{all, images_size, records_size};
ghost use Rattle.numbers.specs.Outcome.{number_of};
ghost use Rattle.station_calls.specs.Calls.{images_blank, records_blank, blank_number, blank_after};

use buffers::{IMAGES, OWN, RECORDS};
use numbers::{EVERY_NODE, NODES, Refusal};

// Whether a blank station may be made of these buffers, with these nodes on.
#[tactic(auto, unfolding(crate::specs::Calls::blank_number))]
fn may_blank(images: &[u8], records: &[u8], pool: &[u8], own: &[u8], on: u16) -> Result<(), Refusal>
    ensures { number_of result ≡ blank_number (all images.now records.now pool.now own.now) on }
{
    if images.len() != IMAGES || records.len() != RECORDS {
        return Err(Refusal::Length);
    }
    if pool.len() != pool::SIZE || own.len() != OWN {
        return Err(Refusal::Length);
    }
    if EVERY_NODE < on {
        return Err(Refusal::Stranger);
    }
    Ok(())
}

// Every image becomes blank.
fn blank_images(images: &mut [u8])
    requires { length images.old ≡ images_size }
    ensures { images.new ≡ images_blank nodes images.old }
{
    for n in 0..NODES {
        let start = image::SIZE * n;
        let end = start + image::SIZE;
        // A part of an image's length is never refused.
        let _ = image::blank(&mut images[start..end]);
    }
}

// Every record becomes blank.
fn blank_records(records: &mut [u8])
    requires { length records.old ≡ records_size }
    ensures { records.new ≡ records_blank nodes records.old }
{
    for n in 0..NODES {
        let start = record::SIZE * n;
        let end = start + record::SIZE;
        // A part of a record's length is never refused.
        let _ = record::blank(&mut records[start..end]);
    }
}

// Makes a blank station whose nodes of a mask are on. Ruled out: a message that still waits; a node that is on though the mask does not name it.
pub fn blank(
    images: &mut [u8],
    records: &mut [u8],
    pool: &mut [u8],
    own: &mut [u8],
    on: u16,
) -> Result<(), Refusal>
    ensures value { number_of result ≡ blank_number (all images.old records.old pool.old own.old) on }
    ensures images_after { images.new ≡ (blank_after (all images.old records.old pool.old own.old) on).images }
    ensures records_after { records.new ≡ (blank_after (all images.old records.old pool.old own.old) on).records }
    ensures pool_after { pool.new ≡ (blank_after (all images.old records.old pool.old own.old) on).pool }
    ensures own_after { own.new ≡ (blank_after (all images.old records.old pool.old own.old) on).own }
{
    may_blank(images, records, pool, own, on)?;
    blank_images(images);
    blank_records(records);
    // A pool of its length is never refused.
    let _ = pool::blank(pool);
    octets::put_u16(own, 0, on);
    Ok(())
}
