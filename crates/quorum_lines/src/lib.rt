// The lines of the quorum program: what a line says, the reply to it, and the replies to input that comes in pieces.
#![tactic(auto)]

ghost use Rattle.std.specs.Prelude.{◌≡◌, ◌+◌, ◌≤◌, ◌<◌, length};
ghost use Rattle.numbers.specs.Sizes.{nodes};
ghost use Rattle.decimal.specs.Decimal.{put_at, next_at};
ghost use Rattle.quorum_lines.specs.Line.{fresh as freshLine, most, spoil, keep, space, digit, may_end, is_good, at_asker, begun};
ghost use Rattle.quorum_lines.specs.Line.{step as stepLine, ended};
ghost use Rattle.quorum_lines.specs.Reply.{choice_text, column, row, reply, header_text};
ghost use Rattle.quorum_lines.specs.Output.{next_line, reply_at, after, replies_in, piece, last_in};

use numbers::{EVERY_NODE, NODES, NODES_END};
use quorum::{Kind, Quorum};

// No reply is longer.
pub const LONGEST_ROW: usize = 40;

// The largest live mask.
const MOST_LIVE: u32 = EVERY_NODE as u32;

// The first number that is no asker.
const ASKERS_END: u16 = NODES_END as u16;

// A line that is being read, byte by byte.
#[derive(Clone, Copy)]
pub struct Line {
    // How many numbers are complete.
    pub count: usize,
    // Whether the number that is being read has a digit yet, and what it is so far.
    pub digits: bool,
    pub value: u16,
    // Whether the line is bad, whatever comes.
    pub spoilt: bool,
    // The complete numbers: the live mask, then the distances. The asker, if one comes, is the last number and stands in value.
    pub live: u16,
    pub distances: [u16; NODES],
}

// A line of which nothing is read. Ruled out: a line that begins with numbers of the line before; one that is bad at once.
#[tactic(auto, unfolding(crate::specs::Line::fresh))]
pub fn fresh() -> Line
    ensures { result ≡ freshLine }
{
    Line {
        count: 0,
        digits: false,
        value: 0,
        spoilt: false,
        live: 0,
        distances: [0; NODES],
    }
}

// The largest that a number may be, after k others; the asker's own limit is tested where the line ends.
#[tactic(auto, unfolding(crate::specs::Line::most))]
fn largest(k: usize) -> u32
    ensures { (result ≡ most k) × (result < 65536) }
{
    if k == 0 { MOST_LIVE } else { 65535 }
}

// The line is bad, whatever comes.
#[tactic(auto, unfolding(crate::specs::Line::spoil))]
fn spoilt(line: Line) -> Line
    ensures { result ≡ spoil line }
{
    Line {
        spoilt: true,
        ..line
    }
}

// The number that was read is complete.
#[tactic(auto, unfolding(crate::specs::Line::keep))]
fn kept(line: Line) -> Line
    requires { line.count ≤ nodes }
    ensures { result ≡ keep line }
{
    let mut l = Line {
        count: line.count + 1,
        digits: false,
        value: 0,
        ..line
    };
    if line.count == 0 {
        l.live = line.value;
    } else {
        l.distances[line.count - 1] = line.value;
    }
    l
}

// A space: it is good behind the mask and behind each distance.
#[tactic(auto, unfolding(crate::specs::Line::space))]
fn spaced(line: Line) -> Line
    ensures { result ≡ space line }
{
    if line.digits && line.count <= NODES {
        return kept(line);
    }
    spoilt(line)
}

// A digit.
#[tactic(auto, unfolding(crate::specs::Line::digit, crate::specs::Line::may_follow, crate::specs::Line::more))]
fn with_digit(line: Line, d: u8) -> Line
    requires { d < 10 }
    ensures { result ≡ digit line d }
{
    let v = u32::from(line.value) * 10 + u32::from(d);
    let leading = line.digits && line.value == 0;
    if largest(line.count) < v || leading {
        return spoilt(line);
    }
    Line {
        digits: true,
        value: v as u16,
        ..line
    }
}

// One byte of a line. Ruled out: a second space taken for one; a digit behind a leading zero taken as part of the number.
#[tactic(auto, unfolding(crate::specs::Line::step, crate::specs::Line::step_on))]
pub fn step(line: Line, b: u8) -> Line
    ensures { result ≡ stepLine line b }
{
    if line.spoilt {
        return line;
    }
    match b {
        b' ' => spaced(line),
        b'0'..=b'9' => with_digit(line, b - b'0'),
        _ => spoilt(line),
    }
}

// Whether the number that is being read may be the line's last: the last distance, or an asker that is a node.
#[tactic(auto, unfolding(crate::specs::Line::may_end))]
fn may_end(line: Line) -> bool
    ensures { result ≡ may_end line }
{
    line.count == NODES || line.count == NODES + 1 && line.value < ASKERS_END
}

// Whether a line that ends here is good.
#[tactic(auto, unfolding(crate::specs::Line::is_good))]
fn is_good(line: Line) -> bool
    ensures { result ≡ is_good line }
{
    !line.spoilt && line.digits && may_end(line)
}

// A good line as it stands at the asker: one that ends with the last distance has this complete, and asker 0.
fn at_asker(line: Line) -> Line
    ensures { result ≡ at_asker line }
{
    if line.count == NODES {
        return kept(line);
    }
    line
}

// Whether something of a line is read.
#[tactic(auto, unfolding(crate::specs::Line::begun))]
fn is_begun(line: Line) -> bool
    ensures { result ≡ begun line }
{
    line.spoilt || line.digits || 0 < line.count
}

// The mask and the sum of a chosen quorum, or `- -`.
fn put_choice(out: &mut [u8], at: usize, choice: Option<Quorum>) -> usize
    requires { at + 16 ≤ length out.old }
    ensures next { result ≡ at + length (choice_text choice) }
    ensures buffer { out.new ≡ put_at out.old at (choice_text choice) }
    ensures within { length (choice_text choice) ≤ 16 }
{
    match choice {
        None => decimal::append(out, at, b"- -"),
        Some(quorum) => {
            let mask = u64::from(quorum.mask);
            let sum = u64::from(quorum.sum);
            let a = decimal::put(out, at, mask);
            let b = decimal::append(out, a, b" ");
            decimal::put(out, b, sum)
        }
    }
}

// A column of a row: a space, and the quorum of a kind that is chosen for the asker.
fn put_column(
    out: &mut [u8],
    at: usize,
    kind: Kind,
    asker: u8,
    live: u16,
    distances: &[u16; NODES],
) -> usize
    requires { at + 17 ≤ length out.old }
    ensures next { result ≡ at + length (column kind asker live distances.now) }
    ensures buffer { out.new ≡ put_at out.old at (column kind asker live distances.now) }
    ensures within { length (column kind asker live distances.now) ≤ 17 }
{
    let choice = quorum::nearest(kind, asker, live, distances);
    let a = decimal::append(out, at, b" ");
    put_choice(out, a, choice)
}

// The row of a good line: its mask, and the quorums that are chosen for its asker.
fn put_row(out: &mut [u8], at: usize, asker: u8, live: u16, distances: &[u16; NODES]) -> usize
    requires { at + 40 ≤ length out.old }
    ensures next { result ≡ at + length (row asker live distances.now) }
    ensures buffer { out.new ≡ put_at out.old at (row asker live distances.now) }
    ensures within { length (row asker live distances.now) ≤ 40 }
{
    let a = decimal::put(out, at, u64::from(live));
    let b = put_column(out, a, Kind::Read, asker, live, distances);
    let c = put_column(out, b, Kind::Write, asker, live, distances);
    decimal::append(out, c, b"\n")
}

// The reply to a line that ends here. Inlined: called, it would have each byte of a line store the whole line for it.
#[inline(always)]
fn put_reply(out: &mut [u8], at: usize, line: Line) -> usize
    requires { at + 40 ≤ length out.old }
    ensures next { result ≡ at + length (reply (ended line)) }
    ensures buffer { out.new ≡ put_at out.old at (reply (ended line)) }
    ensures within { length (reply (ended line)) ≤ 40 }
{
    if is_good(line) {
        let l = at_asker(line);
        let asker = l.value as u8;
        let live = l.live;
        let distances = l.distances;
        return put_row(out, at, asker, live, &distances);
    }
    decimal::append(out, at, b"bad\n")
}

// A line, and how far the replies go.
#[derive(Clone, Copy)]
struct Taken {
    line: Line,
    at: usize,
}

// One byte of the input.
fn take_byte(line: Line, b: u8, out: &mut [u8], at: usize) -> Taken
    requires { at + 40 ≤ length out.old }
    ensures line { result.line ≡ next_line line b }
    ensures next { result.at ≡ at + length (reply_at line b) }
    ensures buffer { out.new ≡ put_at out.old at (reply_at line b) }
    ensures within { length (reply_at line b) ≤ 40 }
{
    if b == 10 {
        let next = put_reply(out, at, line);
        let l = fresh();
        return Taken { line: l, at: next };
    }
    let l = step(line, b);
    Taken { line: l, at }
}

// What a piece of the input comes to: the line after it, how many bytes of the input it has, and how many bytes of replies are
// written.
#[derive(Clone, Copy)]
pub struct Fed {
    pub line: Line,
    pub used: usize,
    pub written: usize,
}

// Takes bytes of the input from the front, and writes the replies to the lines that end there to the front of out, until the
// input is used up or the longest reply might not fit any more.
// Ruled out: a line lost where two pieces meet; a reply that is cut off because out is full.
pub fn feed(line: Line, input: &[u8], out: &mut [u8]) -> Fed
    ensures line { result.line ≡ after line (piece (length out.old) line input.now) }
    ensures used { result.used ≡ length (piece (length out.old) line input.now) }
    ensures written { result.written ≡ length (replies_in line (piece (length out.old) line input.now)) }
    ensures buffer { out.new ≡ put_at out.old 0 (replies_in line (piece (length out.old) line input.now)) }
    ensures within { (result.used ≤ length input.now) × (result.written ≤ length out.new) }
{
    let mut l = line;
    let mut at = 0;
    for (i, b) in input.iter().enumerate() {
        if out.len() - at < LONGEST_ROW {
            return Fed {
                line: l,
                used: i,
                written: at,
            };
        }
        let t = take_byte(l, *b, out, at);
        l = t.line;
        at = t.at;
    }
    Fed {
        line: l,
        used: input.len(),
        written: at,
    }
}

// The end of the input: the reply to a last line without its newline, if one is begun, where out has room for any reply.
// Ruled out: a last line that is dropped; a reply to an empty line behind the last newline.
pub fn finish(line: Line, out: &mut [u8]) -> usize
    ensures written { result ≡ length (last_in (length out.old) line) }
    ensures buffer { out.new ≡ put_at out.old 0 (last_in (length out.old) line) }
    ensures within { result ≤ length out.new }
{
    if out.len() < LONGEST_ROW {
        return 0;
    }
    if is_begun(line) {
        return put_reply(out, 0, line);
    }
    0
}

// The header, at the front of out, where it fits. Ruled out: a header without its newline; a header that is cut off.
pub fn header(out: &mut [u8]) -> usize
    ensures written { result ≡ next_at out.old 0 header_text }
    ensures buffer { out.new ≡ put_at out.old 0 header_text }
    ensures within { result ≤ length out.new }
{
    decimal::append(out, 0, b"live read sum write sum\n")
}
