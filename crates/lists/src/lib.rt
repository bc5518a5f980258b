// The list of numbers of a scenario, and what is laid in bytes from it: a table of packing hours, a table of classes, or weights.
#![tactic(auto)]

ghost use Rattle.std.specs.Prelude.{◌≡◌, cond, [], ◌+◌, ◌≤◌, ◌<◌, min, leb, length, take};
ghost use Rattle.lists.specs.Lists.{has_room, appended, hours_width, classes_width, width, limit, counted, first, fits, laid};

// The most numbers of a list, the most of one line, and room for all that may be laid.
pub const MOST: usize = 4097;

pub const MOST_AT_ONCE: usize = 16;

pub const SIZE: usize = 16392;

// What is laid: packing hours, classes, or the weights of a batch.
#[derive(Clone, Copy)]
pub enum Shape {
    Hours,
    Classes,
    Weights,
}

// Whether every number fits its place, and how many bytes were laid.
#[derive(Clone, Copy)]
pub struct Laid {
    pub fits: bool,
    pub long: usize,
}

fn has_room(long: usize, listed: usize, count: usize) -> bool
    ensures { result ≡ leb (count + listed) (min 4097 long) }
{
    let room = MOST.min(long);
    if room < listed {
        return false;
    }
    count <= room - listed
}

// Puts some numbers behind those that are listed, and answers whether there was room. Ruled out: as many as there is room for; the first of the list
// overwritten.
pub fn append(list: &mut [u64], listed: usize, numbers: [u64; MOST_AT_ONCE], count: usize) -> bool
    ensures room { result ≡ has_room list.old listed count }
    ensures list { list.new ≡ appended list.old listed numbers count }
{
    if !has_room(list.len(), listed, count) {
        return false;
    }
    let n = count.min(MOST_AT_ONCE);
    list[listed..listed + n].copy_from_slice(&numbers[..n]);
    true
}

// How many bytes a number has by its place, and the first number that is too large for so many.
fn hours_width(n: usize, i: usize) -> usize
    requires { n < 256 }
    ensures { (result ≡ hours_width n i) × (result ≤ 4) }
{
    if i == 0 {
        return 1;
    }
    if i <= 2 * n {
        return 2;
    }
    if i == 2 * n + 1 {
        return 1;
    }
    4
}

fn classes_width(n: usize, i: usize) -> usize
    ensures { (result ≡ classes_width n i) × (result ≤ 4) }
{
    if i == 0 {
        return 1;
    }
    if i <= n {
        return 2;
    }
    1
}

fn width(shape: Shape, n: usize, i: usize) -> usize
    requires { n < 256 }
    ensures { (result ≡ width shape n i) × (result ≤ 4) }
{
    match shape {
        Shape::Hours => hours_width(n, i),
        Shape::Classes => classes_width(n, i),
        Shape::Weights => 2,
    }
}

fn limit(k: usize) -> u64
    ensures { (result ≡ limit k) × (result ≤ 4294967296) }
{
    if k == 1 {
        return 256;
    }
    if k == 2 {
        return 65536;
    }
    4294967296
}

// The first number, of one byte.
fn first(list: &[u64]) -> usize
    ensures { (result ≡ first list.now) × (result < 256) }
{
    if list.is_empty() {
        return 0;
    }
    (list[0] % 256) as usize
}

// Lays what stands before the numbers, and answers how many bytes that is.
fn lead(shape: Shape, count: usize, out: &mut [u8]) -> usize
    requires { (count ≤ 4097) × (2 ≤ length out.old) }
    ensures bytes { take result out.new ≡ counted shape count }
    ensures long { (result ≤ 2) × (length out.new ≡ length out.old) }
{
    match shape {
        Shape::Hours => 0,
        Shape::Classes => 0,
        Shape::Weights => {
            octets::put_u16(out, 0, count as u16);
            2
        }
    }
}

// Lays the first numbers of a list as the bytes of what they are, at the front of a buffer; what stands behind them is left open. Ruled out: every number in
// four bytes; a number cut to its place; the high byte first.
pub fn lay(list: &[u64], listed: usize, shape: Shape, out: &mut [u8]) -> Laid
    ensures fits { result.fits ≡ fits shape (length out.old) (take listed list.now) }
    ensures bytes { take result.long out.new
        ≡ cond (fits shape (length out.old) (take listed list.now)) (laid shape (take listed list.now)) [] }
    ensures long { result.long ≤ length out.new }
{
    let none = Laid {
        fits: false,
        long: 0,
    };
    let numbers = &list[..listed.min(list.len())];
    if (MOST + 1).min(out.len() / 4) <= numbers.len() {
        return none;
    }
    let n = first(numbers);
    let mut at = lead(shape, numbers.len(), out);
    for (i, v) in numbers.iter().enumerate() {
        let w = width(shape, n, i);
        if limit(w) <= *v {
            return none;
        }
        octets::put_u32(out, at, *v as u32);
        at += w;
    }
    Laid {
        fits: true,
        long: at,
    }
}
