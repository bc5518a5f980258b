// The station program: reads scenarios as text, and writes what their steps answered and how each scenario ends.
// It moves bytes only: what is done and written for what is read is `scenario`. A read or a write that fails ends it with its error.
#![tactic(auto)]

use numbers::EVERY_NODE;
use reading::Reader;
use std::io;
use std::io::{Read, Stdin, Stdout, Write};

// How many bytes are written at once: room for the longest end of a scenario, 22,366 bytes, and for the line behind it.
const OUT: usize = 32768;

// The reader, and whether to go on.
#[derive(Clone, Copy)]
struct Went {
    reader: Reader,
    on: bool,
}

// Writes the front of the buffer, and answers whether the buffer has so many bytes.
fn put(to: &mut Stdout, out: &[u8], n: usize) -> io::Result<bool> {
    if out.len() < n {
        return Ok(false);
    }
    to.write_all(&out[..n])?;
    Ok(true)
}

// The next byte of the input, and none where it has ended.
fn get(from: &mut Stdin) -> io::Result<Option<u8>> {
    let mut input = [0u8; 1];
    let n = from.read(&mut input)?;
    if n == 0 {
        return Ok(None);
    }
    Ok(Some(input[0]))
}

// Reads a byte, and writes what comes of it; the input ends where nothing came.
fn turn(
    r: Reader,
    from: &mut Stdin,
    images: &mut [u8],
    records: &mut [u8],
    pool: &mut [u8],
    own: &mut [u8],
    settings: &mut [u8],
    list: &mut [u64],
    sheet: &mut [u64],
    to: &mut Stdout,
    out: &mut [u8],
) -> io::Result<Went> {
    match get(from)? {
        None => Ok(Went {
            reader: r,
            on: false,
        }),
        Some(byte) => {
            let t = scenario::take(
                r, byte, images, records, pool, own, settings, list, sheet, out,
            );
            let on = put(to, out, t.written)?;
            Ok(Went {
                reader: t.reader,
                on,
            })
        }
    }
}

// Reads until the input ends. A proved loop has to end, and nothing says that the input does: so the loop counts its turns,
// up to a number that no run comes to.
fn all(
    from: &mut Stdin,
    images: &mut [u8],
    records: &mut [u8],
    pool: &mut [u8],
    own: &mut [u8],
    settings: &mut [u8],
    list: &mut [u64],
    sheet: &mut [u64],
    to: &mut Stdout,
    out: &mut [u8],
) -> io::Result<Reader> {
    let mut r = reading::fresh();
    for _ in 0..u64::MAX {
        let went = turn(
            r, from, images, records, pool, own, settings, list, sheet, to, out,
        )?;
        r = went.reader;
        if !went.on {
            break;
        }
    }
    Ok(r)
}

fn main(rt: HostRuntime) -> io::Result<()> {
    let mut from = rt.stdin();
    let mut to = rt.stdout();
    let mut images = [0u8; buffers::IMAGES];
    let mut records = [0u8; buffers::RECORDS];
    let mut pool = [0u8; pool::SIZE];
    let mut own = [0u8; buffers::OWN];
    let mut settings = [0u8; service_calls::SETTINGS];
    let mut list = [0u64; lists::MOST];
    let mut sheet = [0u64; replay::SIZE];
    let mut out = [0u8; OUT];
    runs::start(
        &mut images,
        &mut records,
        &mut pool,
        &mut own,
        &mut settings,
        EVERY_NODE,
    );
    replay::blank(&mut sheet);
    let r = all(
        &mut from,
        &mut images,
        &mut records,
        &mut pool,
        &mut own,
        &mut settings,
        &mut list,
        &mut sheet,
        &mut to,
        &mut out,
    )?;
    let n = scenario::finish(
        r,
        &mut images,
        &mut records,
        &mut pool,
        &mut own,
        &mut settings,
        &mut list,
        &mut sheet,
        &mut out,
    );
    put(&mut to, &out, n)?;
    Ok(())
}
