// The quorum program: reads lines of a live mask, thirteen distances and, if given, the asker, and writes the nearest read and write quorum of each.
// It moves bytes only: what is written for what is read is `quorum_lines`, which is proved. A read or a write that fails ends it with its error.
#![tactic(auto)]

use quorum_lines::Line;
use std::io;
use std::io::{Read, Stdin, Stdout, Write};
use std::ops::ControlFlow;

// How many bytes are read at once, and written at once.
const PIECE: usize = 65536;

// Writes the replies to one piece of the input. Goes on with the line behind it, and stops where no reply fits into the buffer.
fn answer(
    line: Line,
    input: &[u8],
    to: &mut Stdout,
    out: &mut [u8],
) -> io::Result<ControlFlow<Line, Line>> {
    let mut l = line;
    let mut rest = input;
    // Stays a while: how much of the rest a turn takes is known only behind it.
    while !rest.is_empty() {
        let fed = quorum_lines::feed(l, rest, out);
        if fed.used == 0 {
            return Ok(ControlFlow::Break(l));
        }
        to.write_all(&out[..fed.written])?;
        l = fed.line;
        rest = &rest[fed.used..];
    }
    Ok(ControlFlow::Continue(l))
}

// Reads once, and answers what came; the input ends where nothing came.
fn turn(
    line: Line,
    from: &mut Stdin,
    input: &mut [u8],
    to: &mut Stdout,
    out: &mut [u8],
) -> io::Result<ControlFlow<Line, Line>> {
    let n = from.read(input)?;
    if n == 0 {
        return Ok(ControlFlow::Break(line));
    }
    answer(line, &input[..n], to, out)
}

// Reads until the input ends. A proved loop has to end, and nothing says that the input does: so the loop counts its turns,
// up to a number that no run comes to.
fn all(from: &mut Stdin, input: &mut [u8], to: &mut Stdout, out: &mut [u8]) -> io::Result<Line> {
    let mut l = quorum_lines::fresh();
    for _ in 0..u64::MAX {
        match turn(l, from, input, to, out)? {
            ControlFlow::Continue(next) => l = next,
            ControlFlow::Break(last) => return Ok(last),
        }
    }
    Ok(l)
}

fn main(rt: HostRuntime) -> io::Result<()> {
    let mut from = rt.stdin();
    let mut to = rt.stdout();
    let mut input = [0u8; PIECE];
    let mut out = [0u8; PIECE];
    let n = quorum_lines::header(&mut out);
    to.write_all(&out[..n])?;
    let line = all(&mut from, &mut input, &mut to, &mut out)?;
    let m = quorum_lines::finish(line, &mut out);
    to.write_all(&out[..m])
}
