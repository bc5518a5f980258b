// Little-endian numbers in lent bytes, and the signed number that 64 bits are.
// Bytes past the end are not there: they read as 0, and writing them does nothing.
#![tactic(auto)]

ghost use Rattle.std.specs.Prelude.{◌≡◌, ◌+◌, ◌-◌, ◌≤◌, ◌<◌, ◌^◌, min, leb, length, get_or, set};
ghost use Rattle.octets.specs.Octets.{get, put};
ghost use Rattle.octets.specs.Signed.{signed_of, bits_of};

// How many of k bytes from `at` on are there.
fn there(len: usize, at: usize, k: usize) -> usize
    ensures { result ≡ min k (len - at) }
{
    k.min(len.saturating_sub(at))
}

// The number that the k bytes from `at` make, little-endian, read from the last one on.
fn get_bytes(s: &[u8], at: usize, k: usize) -> u64
    requires { k ≤ 8 }
    ensures { (result ≡ get k s.now at) × (result < 256 ^ k) }
{
    let n = there(s.len(), at, k);
    let mut acc: u64 = 0;
    for i in (0..n).rev() {
        acc = 256 * acc + u64::from(s[at + i]);
    }
    acc
}

// Puts the k low bytes of v from `at` on, the lowest first.
fn put_bytes(s: &mut [u8], at: usize, k: usize, v: u64)
    ensures { s.new ≡ put k s.old at v }
{
    let n = there(s.len(), at, k);
    let mut rest = v;
    for i in 0..n {
        s[at + i] = (rest % 256) as u8;
        rest = rest / 256;
    }
}

// Whether k bytes from `at` on are all there.
fn within(len: usize, at: usize, k: usize) -> bool
    ensures { result ≡ leb (at + k) len }
{
    k <= len && at <= len - k
}

// Two, four and eight bytes that are there, read without a loop: a compiler makes one load of them.
fn two(s: &[u8], at: usize) -> u64
    requires { at + 2 ≤ length s.now }
    ensures { (result ≡ get 2 s.now at) × (result < 65536) }
{
    u64::from(s[at]) + 256 * u64::from(s[at + 1])
}

fn four(s: &[u8], at: usize) -> u64
    requires { at + 4 ≤ length s.now }
    ensures { (result ≡ get 4 s.now at) × (result < 4294967296) }
{
    two(s, at) + 65536 * two(s, at + 2)
}

fn eight(s: &[u8], at: usize) -> u64
    requires { at + 8 ≤ length s.now }
    ensures { result ≡ get 8 s.now at }
{
    four(s, at) + 4294967296 * four(s, at + 4)
}

// The same written.
fn put_two(s: &mut [u8], at: usize, v: u64)
    requires { at + 2 ≤ length s.old }
    ensures { s.new ≡ put 2 s.old at v }
{
    s[at] = (v % 256) as u8;
    s[at + 1] = (v / 256 % 256) as u8;
}

fn put_four(s: &mut [u8], at: usize, v: u64)
    requires { at + 4 ≤ length s.old }
    ensures { s.new ≡ put 4 s.old at v }
{
    put_two(s, at, v);
    put_two(s, at + 2, v / 65536);
}

fn put_eight(s: &mut [u8], at: usize, v: u64)
    requires { at + 8 ≤ length s.old }
    ensures { s.new ≡ put 8 s.old at v }
{
    put_four(s, at, v);
    put_four(s, at + 4, v / 4294967296);
}

// Each reader at a width rules out, among others: the bytes read high end first; a byte of the neighbouring number; at one byte,
// 0 for the last byte of the slice.
pub fn get_u8(s: &[u8], at: usize) -> u8
    ensures { result ≡ get_or s.now at 0 }
{
    if at < s.len() { s[at] } else { 0 }
}

pub fn get_u16(s: &[u8], at: usize) -> u16
    ensures { result ≡ get 2 s.now at }
{
    if within(s.len(), at, 2) {
        return two(s, at) as u16;
    }
    get_bytes(s, at, 2) as u16
}

pub fn get_u32(s: &[u8], at: usize) -> u32
    ensures { result ≡ get 4 s.now at }
{
    if within(s.len(), at, 4) {
        return four(s, at) as u32;
    }
    get_bytes(s, at, 4) as u32
}

pub fn get_u64(s: &[u8], at: usize) -> u64
    ensures { result ≡ get 8 s.now at }
{
    if within(s.len(), at, 8) {
        return eight(s, at);
    }
    get_bytes(s, at, 8)
}

// Each writer at a width rules out, among others: the bytes written high end first; a byte beside the number altered; at one
// byte, the last byte of the slice left.
pub fn put_u8(s: &mut [u8], at: usize, v: u8)
    ensures { s.new ≡ set s.old at v }
{
    if at < s.len() {
        s[at] = v;
    }
}

pub fn put_u16(s: &mut [u8], at: usize, v: u16)
    ensures { s.new ≡ put 2 s.old at v }
{
    if within(s.len(), at, 2) {
        put_two(s, at, u64::from(v));
    } else {
        put_bytes(s, at, 2, u64::from(v));
    }
}

pub fn put_u32(s: &mut [u8], at: usize, v: u32)
    ensures { s.new ≡ put 4 s.old at v }
{
    if within(s.len(), at, 4) {
        put_four(s, at, u64::from(v));
    } else {
        put_bytes(s, at, 4, u64::from(v));
    }
}

pub fn put_u64(s: &mut [u8], at: usize, v: u64)
    ensures { s.new ≡ put 8 s.old at v }
{
    if within(s.len(), at, 8) {
        put_eight(s, at, v);
    } else {
        put_bytes(s, at, 8, v);
    }
}

// The signed number that 64 bits are in two's complement. Ruled out: the bits with the sign bit cut off; one less than the number.
pub fn signed(x: u64) -> i64
    ensures { result ≡ signed_of x }
{
    x.cast_signed()
}

// The 64 bits of a signed number in two's complement. Ruled out: its magnitude; the bits of its opposite.
pub fn bits(x: i64) -> u64
    ensures { result ≡ bits_of x }
{
    x.cast_unsigned()
}
