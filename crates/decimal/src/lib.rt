// The canonical decimal text of a number, put into a lent buffer.
#![tactic(auto)]

ghost use Rattle.std.specs.Prelude.{◌≡◌, ◌≤◌, length, drop};
ghost use Rattle.decimal.specs.Decimal.{decimal, put_at, next_at};

// The text of a number: the bytes from `from` on.
#[derive(Clone, Copy)]
struct Text {
    from: usize,
    bytes: [u8; 20],
}

// The decimal text of a number, written from the last digit on.
fn text_of(n: u64) -> Text
    ensures text { drop result.from result.bytes ≡ decimal n }
    ensures within { (result.from ≤ 20) × (length result.bytes ≡ 20) }
{
    let mut bytes = [0u8; 20];
    let mut from: usize = 19;
    let mut rest = n;
    // Stays a while: it ends where the number does, and not after a count.
    while 10 <= rest {
        bytes[from] = b'0' + (rest % 10) as u8;
        rest /= 10;
        from -= 1;
    }
    bytes[from] = b'0' + rest as u8;
    Text { from, bytes }
}

// Puts a text into a buffer at a position and answers the position behind it; where it does not fit, the buffer is left
// and the answer is the position. Ruled out: a text cut off at the buffer's end; a byte behind the text that changes.
pub fn append(out: &mut [u8], at: usize, text: &[u8]) -> usize
    ensures next { result ≡ next_at out.old at text.now }
    ensures buffer { out.new ≡ put_at out.old at text.now }
{
    if out.len() < at {
        return at;
    }
    if out.len() - at < text.len() {
        return at;
    }
    let end = at + text.len();
    out[at..end].copy_from_slice(text);
    end
}

// Puts the decimal text of a number into a buffer at a position and answers the position behind it; where it does not
// fit, the buffer is left and the answer is the position. Ruled out: "007" for 7; a next position that is one too far.
pub fn put(out: &mut [u8], at: usize, n: u64) -> usize
    ensures next { result ≡ next_at out.old at (decimal n) }
    ensures buffer { out.new ≡ put_at out.old at (decimal n) }
{
    let t = text_of(n);
    append(out, at, &t.bytes[t.from..])
}
