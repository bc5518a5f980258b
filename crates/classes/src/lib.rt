// Weight classes: a table of bounds and tallies, as it is lent and as a node keeps it in lent bytes; a batch of weights sorted into the classes.
#![tactic(auto)]

ghost use Rattle.std.specs.Prelude.{◌≡◌, true, cond, ℕ, ◌+◌, ◌/◌, ◌%◌, ◌≤◌, ◌<◌, ltb, leb, get_or};
ghost use Rattle.wire.specs.Formed.{every};
ghost use Rattle.wire.specs.Decode.{items_from};
ghost use Rattle.numbers.specs.Outcome.{number_of};
ghost use Rattle.classes.specs.Classes.{most_bounds, most_classes, too_heavy, bound_count, tally_place, tally_count, bounds, tally_at, tallies};
ghost use Rattle.classes.specs.Classes.{strange, rising, unbounded, has, twice, length_number, table_number, no_table, sound, class_of};
ghost use Rattle.classes.specs.Weights.{weight_count, weights, batch_length, overweight, weighed, count_up, tallies_of, grams_of, left_of};

use numbers::Refusal;
use std::array;

// The bytes in which a node keeps its table.
pub const KEPT: usize = 24;

// The most classes and the most bounds between them.
pub const MOST_CLASSES: usize = 8;

const MOST_BOUNDS: usize = 7;

// The first number of tenths that is no bound and no weight; the most weights of a batch.
const TOO_HEAVY: u16 = 2000;

const MOST_WEIGHTS: usize = 4096;

// Stands where a bound could stand and there is none: no number of two bytes reaches it.
const NO_BOUND: u32 = 65536;

// How many bounds there are, and where the count of the tallies stands.
fn bound_count(list: &[u8]) -> usize
    ensures { (result ≡ bound_count list.now) × (result < 256) }
{
    usize::from(octets::get_u8(list, 0))
}

fn objects_place(list: &[u8]) -> usize
    ensures { (result ≡ tally_place list.now) × (result < 512) }
{
    1 + 2 * bound_count(list)
}

// How many tallies a table has, and so how many classes. Ruled out: the count of the bounds; the first tally.
pub fn count(kept: &[u8]) -> usize
    ensures { (result ≡ tally_count kept.now) × (result < 256) }
{
    usize::from(octets::get_u8(kept, objects_place(kept)))
}

// Whether a list has the length that its counts say, as a table that is lent. Ruled out: a byte behind the lists taken; a table without bounds refused.
#[tactic(auto, unfolding(crate::specs::Classes::length_number))]
pub fn check_length(list: &[u8]) -> Result<(), Refusal>
    ensures { number_of result ≡ length_number list.now }
{
    if list.len() != objects_place(list) + 1 + count(list) {
        return Err(Refusal::Length);
    }
    Ok(())
}

// Whether a tally is none.
fn is_strange(list: &[u8]) -> bool
    ensures { result ≡ strange list.now }
{
    let first = objects_place(list) + 1;
    !(0..count(list)).all(|i| octets::get_u8(list, first + i) < numbers::OBJECTS_END)
}

// Whether the bounds rise strictly and stay in their range.
fn rises(list: &[u8]) -> bool
    ensures { result ≡ rising 0 (bounds list.now) }
{
    let mut low = 0;
    for i in 0..bound_count(list) {
        let bound = octets::get_u16(list, 1 + 2 * i);
        if bound <= low || TOO_HEAVY <= bound {
            return false;
        }
        low = bound;
    }
    true
}

// Whether the bounds are too many, not one fewer than the tallies, or do not rise.
#[tactic(auto, unfolding(crate::specs::Classes::unbounded))]
fn is_unbounded(list: &[u8]) -> bool
    ensures { result ≡ unbounded list.now }
{
    let n = bound_count(list);
    if MOST_BOUNDS < n {
        return true;
    }
    count(list) != n + 1 || !rises(list)
}

// Whether a tally is among the n from a place on.
fn has(list: &[u8], tally: u8, from: usize, n: usize) -> bool
    requires { from + n < 1024 }
    ensures { result ≡ has tally (items_from tally_at 1 n list.now from) }
{
    (0..n).any(|i| octets::get_u8(list, from + i) == tally)
}

// Whether a tally stands twice.
fn is_twice(list: &[u8]) -> bool
    ensures { result ≡ twice list.now }
{
    let first = objects_place(list) + 1;
    let n = count(list);
    (0..n).any(|i| {
        let behind = first + i + 1;
        has(list, octets::get_u8(list, first + i), behind, n - i - 1)
    })
}

// Whether a node that is at work or idle may take a table: refused for a tally that is none, where it is not idle, for the bounds, for a tally twice.
// Ruled out: 'bounds' where a tally is none too; two bounds that are equal taken.
#[tactic(auto, unfolding(crate::specs::Classes::table_number))]
pub fn check_table(working: bool, list: &[u8]) -> Result<(), Refusal>
    ensures { number_of result ≡ table_number working list.now }
{
    if is_strange(list) {
        return Err(Refusal::NoSuchObject);
    }
    if working {
        return Err(Refusal::Busy);
    }
    if is_unbounded(list) {
        return Err(Refusal::Bounds);
    }
    if is_twice(list) {
        return Err(Refusal::TallyTwice);
    }
    Ok(())
}

// Whether no table is kept. Ruled out: a table without bounds taken for none; one of which only the first byte is 0 taken for none.
#[tactic(auto, unfolding(crate::specs::Classes::no_table))]
pub fn is_none(kept: &[u8]) -> bool
    ensures { result ≡ no_table kept.now }
{
    bound_count(kept) == 0 && count(kept) == 0
}

// Whether what is kept is no table or one that loading accepts. Ruled out: a refusal for what stands behind the lists; a table with a tally twice passed.
#[tactic(auto, unfolding(crate::specs::Classes::sound))]
pub fn is_sound(kept: &[u8]) -> bool
    ensures { result ≡ sound kept.now }
{
    is_none(kept) || check_table(false, kept).is_ok()
}

// The tally of a class; 0 where there is no such class.
fn object_of(kept: &[u8], i: usize) -> u8
    requires { i < most_classes }
    ensures { result ≡ get_or (tallies kept.now) i 0 }
{
    if i < count(kept) {
        return octets::get_u8(kept, objects_place(kept) + 1 + i);
    }
    0
}

// The tallies of eight classes, 0 where there are fewer. Ruled out: the count taken for the first of them; what stands behind the lists taken for a tally.
pub fn tallies(kept: &[u8]) -> [u8; MOST_CLASSES]
    ensures { result ≡ tallies_of kept.now }
{
    array::from_fn(|i| object_of(kept, i))
}

// How many weights a batch has.
fn weight_count(list: &[u8]) -> usize
    ensures { (result ≡ weight_count list.now) × (result < 65536) }
{
    usize::from(octets::get_u16(list, 0))
}

// Whether a batch has the length that its count says. Ruled out: a weight cut in half taken; a batch of no weights refused.
#[tactic(auto, unfolding(crate::specs::Weights::batch_length))]
pub fn check_batch(list: &[u8]) -> Result<(), Refusal>
    ensures { number_of result ≡ batch_length list.now }
{
    if list.len() != 2 + 2 * weight_count(list) {
        return Err(Refusal::Length);
    }
    Ok(())
}

// Whether every weight is one.
fn all_light(list: &[u8]) -> bool
    ensures { result ≡ every (λ (w : ℕ). ltb w too_heavy) (weights list.now) }
{
    (0..weight_count(list)).all(|i| octets::get_u16(list, 2 + 2 * i) < TOO_HEAVY)
}

// Whether a batch is too long or has a weight that is none. Ruled out: a weight of 2,000 passed; a batch of 4,096 weights refused.
#[tactic(auto, unfolding(crate::specs::Weights::overweight))]
pub fn is_overweight(list: &[u8]) -> bool
    ensures { result ≡ overweight list.now }
{
    if MOST_WEIGHTS < weight_count(list) {
        return true;
    }
    !all_light(list)
}

// The bounds of a table in a row of seven: every weight has the same class by them.
fn row_of(kept: &[u8]) -> [u32; MOST_BOUNDS]
    requires { bound_count kept.now ≤ most_bounds }
    ensures { (w : ℕ) → w < 65536 → class_of result w ≡ class_of (bounds kept.now) w }
{
    let n = bound_count(kept);
    let mut row = [NO_BOUND; MOST_BOUNDS];
    for i in 0..n {
        row[i] = u32::from(octets::get_u16(kept, 1 + 2 * i));
    }
    row
}

// One where a weight has reached a bound.
fn reached(bound: u32, w: u32) -> usize
    ensures { (result ≡ cond (leb bound w) 1 0) × (result ≤ 1) }
{
    if bound <= w { 1 } else { 0 }
}

// The class of a weight.
fn class_of(row: [u32; MOST_BOUNDS], w: u32) -> usize
    ensures { (result ≡ class_of row w) × (result < most_classes) }
{
    let low = reached(row[0], w) + reached(row[1], w) + reached(row[2], w);
    let high = reached(row[3], w) + reached(row[4], w) + reached(row[5], w);
    low + high + reached(row[6], w)
}

// The sum of the weights of each class.
fn weigh(kept: &[u8], list: &[u8]) -> [u32; MOST_CLASSES]
    requires { bound_count kept.now ≤ most_bounds }
    ensures { result ≡ count_up (λ (i : ℕ). weighed (bounds kept.now) i (weights list.now)) most_classes 0 }
{
    let row = row_of(kept);
    let mut sums = [0u32; MOST_CLASSES];
    for i in 0..weight_count(list) {
        let w = u32::from(octets::get_u16(list, 2 + 2 * i));
        sums[class_of(row, w)] += w;
    }
    sums
}

// What is booked of a batch, in whole grams, and the tenths left over, by class.
#[derive(Clone, Copy)]
pub struct Sorted {
    pub grams: [u64; MOST_CLASSES],
    pub left: [u8; MOST_CLASSES],
}

// Whole grams and tenths of the sums, with the tenths that waited.
fn split(waiting: [u8; MOST_CLASSES], sums: [u32; MOST_CLASSES]) -> Sorted
    ensures grams_value { result.grams ≡ count_up (λ (i : ℕ). (get_or waiting i 0 + get_or sums i 0) / 10) most_classes 0 }
    ensures left_value { result.left ≡ count_up (λ (i : ℕ). (get_or waiting i 0 + get_or sums i 0) % 10) most_classes 0 }
{
    let mut grams = [0u64; MOST_CLASSES];
    let mut left = [0u8; MOST_CLASSES];
    for i in 0..MOST_CLASSES {
        let all = u64::from(waiting[i]) + u64::from(sums[i]);
        grams[i] = all / 10;
        left[i] = (all % 10) as u8;
    }
    Sorted { grams, left }
}

// Sorts a batch by a table, with the tenths that waited: whole grams and the tenths left over, by class. Ruled out: a weight on a bound counted in the lower
// class; the tenths that waited lost. A sound table is asked for: the front end, its one caller, has checked the settings that hold it.
pub fn sort(kept: &[u8], waiting: [u8; MOST_CLASSES], list: &[u8]) -> Sorted
    requires { sound kept.now ≡ true }
    ensures grams_value { result.grams ≡ grams_of kept.now waiting list.now }
    ensures left_value { result.left ≡ left_of kept.now waiting list.now }
{
    split(waiting, weigh(kept, list))
}
