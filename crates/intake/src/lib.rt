// Takes in an image of an older length: it is written as one of today's.
#![tactic(auto)]

ghost use Rattle.std.specs.Prelude.{◌≡◌, length, MatchOption};
ghost use Rattle.std.proofs.Math.Option.{none, some};
ghost use Rattle.numbers.specs.Sizes.{nodes};
ghost use Rattle.image.specs.Layout.{shape, image_size};
ghost use Rattle.image.specs.Valid.{valid};
ghost use Rattle.numbers.specs.Outcome.{number_of};
ghost use Rattle.intake.specs.Take.{older_of, copy_as, owner_as, with_copy, with_kept, with_copies, with_owners, taken_in, take_number, take_after};
ghost use Rattle.intake.specs.Pass.{shape_of, Fits};

use image::{Copy, Owner, SIZE};
use numbers::{NODES_END, Refusal, both};
use read::{counts_ok, old_copy, old_owner};

mod read;

// The shape of an older image: how many objects, and how many bytes a copy has.
#[derive(Clone, Copy)]
struct Older {
    objects: u8,
    width: usize,
}

// How many objects every older shape has.
const OLDER_OBJECTS: u8 = 64;

// The shape with authors, and the size of its images.
const WITH_AUTHORS: Older = Older {
    objects: OLDER_OBJECTS,
    width: 22,
};

const SIZE_WITH_AUTHORS: usize = 1527;

// The shape before authors were kept, and the size of its images.
const BEFORE_AUTHORS: Older = Older {
    objects: OLDER_OBJECTS,
    width: 17,
};

const SIZE_BEFORE_AUTHORS: usize = 1207;

// The older shape of `len` bytes.
fn older_of(len: usize) -> Option<Older>
    ensures { MatchOption result (older_of len ≡ none) (λ s. (older_of len ≡ some (shape_of s)) × Fits s) }
{
    match len {
        SIZE_WITH_AUTHORS => Some(WITH_AUTHORS),
        SIZE_BEFORE_AUTHORS => Some(BEFORE_AUTHORS),
        _ => None,
    }
}

// Sets the copy of object t.
fn set_copy(image: &mut [u8], t: u8, c: Copy)
    ensures { image.new ≡ with_copy image.old t c }
{
    image::set_value(image, t, c.value);
    image::set_version(image, t, c.version);
    image::set_holder(image, t, c.holder);
    image::set_readers(image, t, c.readers);
    image::set_writers(image, t, c.writers);
    image::set_author(image, t, c.author, c.serial);
}

// Sets what is kept of owner o.
fn set_owner(image: &mut [u8], o: u8, w: Owner)
    ensures { image.new ≡ with_kept image.old o w }
{
    image::set_serial(image, o, w.serial);
    image::set_state(image, o, w.state);
    image::set_stamp(image, o, w.stamp);
}

// Sets every copy that the older bytes have.
fn set_copies(old: &[u8], s: Older, image: &mut [u8])
    requires { Fits s }
    ensures { image.new ≡ with_copies (copy_as (shape_of s) old.now) s.objects image.old }
{
    for t in 0..s.objects {
        set_copy(image, t, old_copy(old, s, t));
    }
}

// Sets what is kept of every owner.
fn set_owners(old: &[u8], s: Older, image: &mut [u8])
    requires { Fits s }
    ensures { image.new ≡ with_owners (owner_as (shape_of s) old.now) nodes image.old }
{
    for o in 0..NODES_END {
        set_owner(image, o, old_owner(old, s, o));
    }
}

// The older bytes as an image of today: the blank one, with every copy and every owner that they have.
fn fill(old: &[u8], s: Older, image: &mut [u8])
    requires { Fits s × (length image.old ≡ image_size shape) }
    ensures { image.new ≡ taken_in (shape_of s) old.now }
{
    // Bytes of an image's length are never refused.
    let _ = image::blank(image);
    set_copies(old, s, image);
    set_owners(old, s, image);
}

// Whether the older bytes are valid: their counts, and what they are as an image of today.
fn is_valid(old: &[u8], s: Older, image: &[u8]) -> bool
    requires { Fits s × (image.now ≡ taken_in (shape_of s) old.now) }
    ensures { result ≡ valid (shape_of s) old.now }
{
    both(counts_ok(old, s), image::check(image).is_ok())
}

// Takes in `old`, an image of an older length: writes it into `image`, as one of today's. Refused where `old` has no older length or `image` not
// today's, and where `old` is damaged; then nothing is altered. Ruled out: an author unknown where no copy was written; a copy more than the older bytes have;
// a damaged image taken in.
pub fn take_in(old: &[u8], image: &mut [u8]) -> Result<(), Refusal>
    ensures number { number_of result ≡ take_number old.now image.old }
    ensures image { image.new ≡ take_after old.now image.old }
{
    let Some(s) = older_of(old.len()) else {
        return Err(Refusal::Length);
    };
    if image.len() != SIZE {
        return Err(Refusal::Length);
    }
    let mut scratch = [0u8; SIZE];
    fill(old, s, &mut scratch);
    if !is_valid(old, s, &scratch) {
        return Err(Refusal::Damaged);
    }
    parts::lay(image, &scratch);
    Ok(())
}
