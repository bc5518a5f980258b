// A transaction that adds: sums of two values, and on the bytes of a record whose check passed the calls that open its objects, give each its amount and
// turn each amount into a new value.
#![tactic(auto)]

ghost use Rattle.std.specs.Prelude.{◌≡◌, ◌≤◌, []};
ghost use Rattle.numbers.specs.Sizes.{most_open};
ghost use Rattle.coordinator.specs.System.{tree};
ghost use Rattle.record.specs.Record.{record_of, bytes_of, check};
ghost use Rattle.increments.specs.Sums.{sum64, past};
ghost use Rattle.increments.specs.Deeds.{ran, amounts_of, adding, in_use, summing, any_past};

use numbers::{MOST_OPEN, both};
use record::look::{count, object_at};

// The first number of 64 bits whose top bit, the sign, is set.
const SIGN: u64 = 9223372036854775808;

// The 64 bits of a sum. Ruled out: the highest value where the sum is past the range; the sum less one where it wraps.
pub fn sum(a: u64, g: u64) -> u64
    ensures { result ≡ sum64 a g }
{
    a.wrapping_add(g)
}

// Whether a sum is past the range: two values of one sign, and the sum of the other. Ruled out: yes for two negative values whose sum is one; no for
// the highest value and 1.
pub fn is_past(a: u64, g: u64) -> bool
    ensures { result ≡ past a g }
{
    let negative = SIGN <= sum(a, g);
    if a < SIGN {
        both(g < SIGN, negative)
    } else {
        both(SIGN <= g, !negative)
    }
}

// Opens each object to write and gives it its amount, in this order. Ruled out: an amount given to the object beside; the last object left out.
// The condition is a plain fact of a record that was checked; only the crates that work on one use it, and each proves it.
// 'The check passed' is asked for: the front end, its one caller, has run it.
pub fn add_all(
    bytes: &mut [u8],
    me: u8,
    n: usize,
    objects: [u8; MOST_OPEN],
    grams: [u64; MOST_OPEN],
)
    requires bytes_value { check bytes.old ≡ 0 }
    requires n_le_most_open { n ≤ most_open }
    ensures bytes_after { bytes.new ≡ bytes_of (ran tree (record_of bytes.old) me (adding (amounts_of n objects grams) [])) }
    ensures bytes_after_2 { check bytes.new ≡ 0 }
{
    for i in 0..n {
        let object = objects[i];
        // What is refused changes nothing, as in the running that the clause speaks of.
        let _ = deeds::open(bytes, me, object, 1);
        let _ = deeds::set_value(bytes, me, object, grams[i]);
    }
}

// Whether a new value is past the range. Ruled out: the last object left out; yes for an object past the count.
// The condition is a plain fact of a record that was checked; only the crates that work on one use it, and each proves it.
// 'The check passed' is asked for: the front end, its one caller, has run it.
pub fn any_past(bytes: &[u8]) -> bool
    requires { check bytes.now ≡ 0 }
    ensures { result ≡ any_past (record_of bytes.now) }
{
    let n = count(bytes);
    for i in 0..n {
        let x = object_at(bytes, i);
        if is_past(x.value, x.new) {
            return true;
        }
    }
    false
}

// Adds each amount to the value found: the sum is the new value. Ruled out: the value found overwritten; an amount added twice.
// The condition is a plain fact of a record that was checked; only the crates that work on one use it, and each proves it.
// 'The check passed' is asked for: the front end, its one caller, has run it.
pub fn sum_all(bytes: &mut [u8], me: u8)
    requires { check bytes.old ≡ 0 }
    ensures bytes_after { bytes.new ≡ bytes_of (ran tree (record_of bytes.old) me (summing (in_use (record_of bytes.old)) [])) }
    ensures bytes_after_2 { check bytes.new ≡ 0 }
{
    let n = count(bytes);
    for i in 0..n {
        let x = object_at(bytes, i);
        // What is refused changes nothing, as in the running that the clause speaks of.
        let _ = deeds::set_value(bytes, me, x.object, sum(x.value, x.new));
    }
}
