// Messages written, one writer for each kind. The fields decide whether a message is well formed; only then are its bytes put into the buffer.
ghost use Rattle.std.specs.Prelude.{◌≡◌, cond, ◌&&◌, [], ◌∷◌, ◌+◌, ◌*◌, ◌≤◌, ◌<◌, eqb, ltb, length, get_or, take};
ghost use Rattle.std.proofs.lemmas.List.Edits.{sets};
ghost use Rattle.wire.specs.Decode.{entries_place};
ghost use Rattle.numbers.specs.Sizes.{nodes, most_open, longest_message};
ghost use Rattle.wire.specs.Formed.{counts_ok, entry_ok};
ghost use Rattle.wire.specs.Encode.{encode_entry, encode_rival, encode_word, together, section, encode_header, encode, size_of};
ghost use Rattle.letters.specs.Write.{written_of, buffer_after, one_rival, rivals_by, fetch_of, copy_of, ask_of, vote_of, outcome_of, done_of, yield_of};
ghost use Rattle.letters.specs.Write.{answer, first_entries};
ghost use Rattle.wire.specs.Run.{run, object_of};
ghost use Rattle.wire.specs.Headed.{headed, head_ok};

use crate::Written;
use numbers::{LONGEST_MESSAGE, MOST_OPEN, NODES, NODES_END, SHORTEST_MESSAGE, both};
use wire::{
    ASK, COPY, DONE, ENTRY, Entry, FETCH, HEADER, Head, OUTCOME, RIVAL, Rival, VOTE, YIELD, above,
    counts_ok, entry_fits, entry_ok, head_ok, rival_ok,
};

// The header at the front of a buffer.
fn put_head(out: &mut [u8], h: Head)
    ensures { out.new ≡ sets out.old 0 (encode_header (headed h [] [] [])) }
{
    octets::put_u8(out, 0, h.kind);
    octets::put_u8(out, 1, h.from);
    octets::put_u8(out, 2, h.to);
    octets::put_u8(out, 3, h.owner);
    octets::put_u32(out, 4, h.serial);
    octets::put_u32(out, 8, h.stamp);
}

// An entry, and a rival, in a part of a buffer that has their size.
fn put_entry(out: &mut [u8], e: Entry)
    ensures { out.new ≡ sets out.old 0 (encode_entry e) }
{
    octets::put_u8(out, 0, e.object);
    octets::put_u8(out, 1, e.mode);
    octets::put_u32(out, 2, e.version);
    octets::put_u64(out, 6, e.value);
}

fn put_rival(out: &mut [u8], r: Rival)
    ensures { out.new ≡ sets out.old 0 (encode_rival r) }
{
    octets::put_u8(out, 0, r.owner);
    octets::put_u32(out, 1, r.serial);
}

// The first n entries behind their count.
fn put_entries(out: &mut [u8], entries: [Entry; MOST_OPEN], n: usize)
    requires { (n ≤ most_open) × (longest_message ≤ length out.old) }
    ensures out_after { out.new ≡ sets out.old entries_place (together encode_entry (take n entries)) }
    ensures entries_len { length (take n entries) ≡ n }
{
    for (i, entry) in entries[..n].iter().enumerate() {
        let at = HEADER + 1 + ENTRY * i;
        put_entry(&mut out[at..at + ENTRY], *entry);
    }
}

// An owner's rival at a place, unless the serial is 0; the next place.
fn put_by_owner(out: &mut [u8], at: usize, owner: u8, serial: u32) -> usize
    requires { (at < longest_message) × (at + 5 ≤ length out.old) }
    ensures value { result ≡ at + 5 * length (one_rival owner serial) }
    ensures out_after { out.new ≡ sets out.old at (together encode_rival (one_rival owner serial)) }
{
    if serial == 0 {
        return at;
    }
    let end = at + RIVAL;
    put_rival(&mut out[at..end], Rival { owner, serial });
    end
}

// The rivals behind their count, by owner; the next place.
fn put_rivals(out: &mut [u8], serials: [u32; NODES]) -> usize
    requires { longest_message ≤ length out.old }
    ensures value { result ≡ 14 + 5 * length (rivals_by 0 serials) }
    ensures out_after { out.new ≡ sets out.old 14 (together encode_rival (rivals_by 0 serials)) }
{
    let mut next = HEADER + 2;
    for i in 0..NODES_END {
        next = put_by_owner(out, next, i, serials[usize::from(i)]);
    }
    next
}

// How many rivals there are.
fn count_rivals(serials: [u32; NODES]) -> usize
    ensures value { result ≡ length (rivals_by 0 serials) }
    ensures upper_bound { result ≤ nodes }
{
    // Added up without a branch, which costs less than a chain that filters them.
    let mut n = 0;
    for serial in &serials {
        n += usize::from(*serial != 0);
    }
    n
}

// The words with their count; the message's length.
fn put_words(out: &mut [u8], at: usize, words: usize, word: u8) -> usize
    requires { (at < 1024) × (words ≤ 1) }
    ensures value { result ≡ at + 1 + words }
    ensures out_after { out.new ≡ sets out.old at (section encode_word (take words (word ∷ []))) }
{
    octets::put_u8(out, at, words as u8);
    if words == 0 {
        return at + 1;
    }
    octets::put_u8(out, at + 1, word);
    at + 2
}

// Whole messages at the front of a buffer, by their sections: one entry; entries and words; rivals and a word; one rival; nothing.
fn fill_entry(out: &mut [u8], h: Head, e: Entry)
    requires { longest_message ≤ length out.old }
    ensures { out.new ≡ sets out.old 0 (encode (headed h (e ∷ []) [] [])) }
{
    put_head(out, h);
    octets::put_u8(out, HEADER, 1);
    put_entry(&mut out[13..27], e);
    octets::put_u8(out, 27, 0);
    octets::put_u8(out, 28, 0);
}

fn fill_entries(
    out: &mut [u8],
    h: Head,
    entries: [Entry; MOST_OPEN],
    n: usize,
    words: usize,
    word: u8,
) -> usize
    requires { (n ≤ most_open) × (words ≤ 1) × (longest_message ≤ length out.old) }
    ensures value { result ≡ size_of (headed h (take n entries) [] (take words (word ∷ []))) }
    ensures out_after { out.new ≡ sets out.old 0 (encode (headed h (take n entries) [] (take words (word ∷ [])))) }
{
    put_head(out, h);
    octets::put_u8(out, HEADER, n as u8);
    put_entries(out, entries, n);
    let at = HEADER + 1 + ENTRY * n;
    octets::put_u8(out, at, 0);
    put_words(out, at + 1, words, word)
}

fn fill_rivals(out: &mut [u8], h: Head, serials: [u32; NODES], count: usize, word: u8) -> usize
    requires { (count ≡ length (rivals_by 0 serials)) × (count ≤ nodes) × (longest_message ≤ length out.old) }
    ensures value { result ≡ size_of (headed h [] (rivals_by 0 serials) (word ∷ [])) }
    ensures out_after { out.new ≡ sets out.old 0 (encode (headed h [] (rivals_by 0 serials) (word ∷ []))) }
{
    put_head(out, h);
    octets::put_u8(out, HEADER, 0);
    octets::put_u8(out, HEADER + 1, count as u8);
    let at = put_rivals(out, serials);
    put_words(out, at, 1, word)
}

fn fill_rival(out: &mut [u8], h: Head, r: Rival)
    requires { longest_message ≤ length out.old }
    ensures { out.new ≡ sets out.old 0 (encode (headed h [] (r ∷ []) [])) }
{
    put_head(out, h);
    octets::put_u8(out, HEADER, 0);
    octets::put_u8(out, HEADER + 1, 1);
    put_rival(&mut out[14..19], r);
    octets::put_u8(out, 19, 0);
}

fn fill_nothing(out: &mut [u8], h: Head)
    ensures { out.new ≡ sets out.old 0 (encode (headed h [] [] [])) }
{
    put_head(out, h);
    octets::put_u8(out, HEADER, 0);
    octets::put_u8(out, HEADER + 1, 0);
    octets::put_u8(out, HEADER + 2, 0);
}

// Whether a message is well formed, by its kind, the counts of its sections, its header and what the items say: every writer goes through here.
fn formed(h: Head, entries: usize, rivals: usize, words: usize, word: u8, listed: bool) -> bool
    ensures { result ≡ (counts_ok h.kind entries rivals words word && (head_ok h && listed)) }
{
    both(
        counts_ok(h.kind, entries, rivals, words, word),
        both(head_ok(h), listed),
    )
}

// What refuses a message: 1 a buffer that is too short, 3 fields that are not well formed, 0 nothing.
fn refusal(size: usize, formed: bool) -> u8
    ensures { result ≡ cond (ltb size longest_message) 1 (cond formed 0 3) }
{
    if size < LONGEST_MESSAGE {
        return numbers::LENGTH;
    }
    if formed { 0 } else { numbers::GARBLED }
}

// The answers of a writer: refused, and written.
fn refused(number: u8) -> Written
    ensures { result ≡ answer number 0 }
{
    Written { number, length: 0 }
}

fn written(length: usize) -> Written
    requires { length ≤ longest_message }
    ensures { result ≡ answer 0 length }
{
    Written {
        number: 0,
        length: length as u8,
    }
}

// Whether the owner is no rival of its own; an owner that is no node is refused by its name.
fn no_rival(serials: [u32; NODES], owner: u8) -> bool
    ensures value { result ≡ eqb (get_or serials owner 0) 0 }
    ensures serials_len { length serials ≡ nodes }
{
    NODES_END <= owner || serials[usize::from(owner)] == 0
}

// The first n entries of an ask ascend strictly, and each is well formed; those of a commit are the same.
fn array_ok(entries: [Entry; MOST_OPEN], n: usize) -> bool
    requires { n ≤ most_open }
    ensures value { result ≡ run object_of (entry_ok 3) 0 (take n entries) }
    ensures entries_len { length (take n entries) ≡ n }
{
    let mut lo = 0;
    for entry in &entries[..n] {
        if !entry_fits(ASK, lo, *entry) {
            return false;
        }
        lo = above(entry.object);
    }
    true
}

// The writers of the sections: what the fields refuse is not written, and the buffer is untouched.

// One entry: fetch, copy.
fn send_entry(out: &mut [u8], h: Head, e: Entry) -> Written
    ensures value { result ≡ written_of (length out.old) (headed h (e ∷ []) [] []) }
    ensures out_after { out.new ≡ buffer_after (headed h (e ∷ []) [] []) out.old }
{
    let number = refusal(out.len(), formed(h, 1, 0, 0, 0, entry_ok(h.kind, e)));
    if number != 0 {
        return refused(number);
    }
    fill_entry(&mut out[..LONGEST_MESSAGE], h, e);
    written(29)
}

// The first n entries, and words (0 or 1) words: ask, outcome.
fn send_entries(
    out: &mut [u8],
    h: Head,
    entries: [Entry; MOST_OPEN],
    n: usize,
    words: usize,
    word: u8,
) -> Written
    requires { (words ≤ 1) × (get_or (take words (word ∷ [])) 0 0 ≡ word) × (entry_ok h.kind ≡ entry_ok 3) }
    ensures value { result ≡ written_of (length out.old) (headed h (first_entries n entries) [] (take words (word ∷ []))) }
    ensures out_after { out.new ≡ buffer_after (headed h (first_entries n entries) [] (take words (word ∷ []))) out.old }
{
    // No more entries than there are can be looked at.
    let count = n.min(MOST_OPEN);
    let listed = array_ok(entries, count);
    let number = refusal(out.len(), formed(h, n, 0, words, word, listed));
    if number != 0 {
        return refused(number);
    }
    let length = fill_entries(&mut out[..LONGEST_MESSAGE], h, entries, n, words, word);
    written(length)
}

// The writers. Each rules out, among others: a buffer altered on a refusal; bytes behind the message altered; another node as the sender.

// fetch: the owner asks a node for its copy of an object, to read (mode 0) or to write (1).
pub fn write_fetch(
    out: &mut [u8],
    to: u8,
    owner: u8,
    serial: u32,
    stamp: u32,
    object: u8,
    mode: u8,
) -> Written
    ensures value { result ≡ written_of (length out.old) (fetch_of to owner serial stamp object mode) }
    ensures out_after { out.new ≡ buffer_after (fetch_of to owner serial stamp object mode) out.old }
{
    let e = Entry {
        object,
        mode,
        version: 0,
        value: 0,
    };
    let h = Head {
        kind: FETCH,
        from: owner,
        to,
        owner,
        serial,
        stamp,
    };
    send_entry(out, h, e)
}

// copy: a node answers the owner's fetch.
pub fn write_copy(out: &mut [u8], from: u8, owner: u8, serial: u32, stamp: u32, e: Entry) -> Written
    ensures value { result ≡ written_of (length out.old) (copy_of from owner serial stamp e) }
    ensures out_after { out.new ≡ buffer_after (copy_of from owner serial stamp e) out.old }
{
    let h = Head {
        kind: COPY,
        from,
        to: owner,
        owner,
        serial,
        stamp,
    };
    send_entry(out, h, e)
}

// ask: the owner asks a node for its vote on the first n entries. Ruled out: nine entries of which eight are written.
pub fn write_ask(
    out: &mut [u8],
    to: u8,
    owner: u8,
    serial: u32,
    stamp: u32,
    entries: [Entry; MOST_OPEN],
    n: usize,
) -> Written
    ensures value { result ≡ written_of (length out.old) (ask_of to owner serial stamp entries n) }
    ensures out_after { out.new ≡ buffer_after (ask_of to owner serial stamp entries n) out.old }
{
    let h = Head {
        kind: ASK,
        from: owner,
        to,
        owner,
        serial,
        stamp,
    };
    send_entries(out, h, entries, n, 0, 0)
}

// vote: a node answers the owner's ask, word 1 for yes with the rivals by owner, 0 for no.
pub fn write_vote(
    out: &mut [u8],
    from: u8,
    owner: u8,
    serial: u32,
    stamp: u32,
    rivals: [u32; NODES],
    word: u8,
) -> Written
    ensures value { result ≡ written_of (length out.old) (vote_of from owner serial stamp rivals word) }
    ensures out_after { out.new ≡ buffer_after (vote_of from owner serial stamp rivals word) out.old }
{
    let h = Head {
        kind: VOTE,
        from,
        to: owner,
        owner,
        serial,
        stamp,
    };
    let count = count_rivals(rivals);
    let listed = no_rival(rivals, owner);
    let number = refusal(out.len(), formed(h, 0, count, 1, word, listed));
    if number != 0 {
        return refused(number);
    }
    let length = fill_rivals(&mut out[..LONGEST_MESSAGE], h, rivals, count, word);
    written(length)
}

// outcome: the owner tells a node the outcome, word 1 for commit with the first n entries, 0 for abort with none.
pub fn write_outcome(
    out: &mut [u8],
    to: u8,
    owner: u8,
    serial: u32,
    stamp: u32,
    entries: [Entry; MOST_OPEN],
    n: usize,
    word: u8,
) -> Written
    ensures value { result ≡ written_of (length out.old) (outcome_of to owner serial stamp entries n word) }
    ensures out_after { out.new ≡ buffer_after (outcome_of to owner serial stamp entries n word) out.old }
{
    let h = Head {
        kind: OUTCOME,
        from: owner,
        to,
        owner,
        serial,
        stamp,
    };
    send_entries(out, h, entries, n, 1, word)
}

// done: a node answers the owner's outcome.
pub fn write_done(out: &mut [u8], from: u8, owner: u8, serial: u32, stamp: u32) -> Written
    ensures value { result ≡ written_of (length out.old) (done_of from owner serial stamp) }
    ensures out_after { out.new ≡ buffer_after (done_of from owner serial stamp) out.old }
{
    let h = Head {
        kind: DONE,
        from,
        to: owner,
        owner,
        serial,
        stamp,
    };
    let number = refusal(out.len(), formed(h, 0, 0, 0, 0, true));
    if number != 0 {
        return refused(number);
    }
    fill_nothing(&mut out[..LONGEST_MESSAGE], h);
    written(SHORTEST_MESSAGE)
}

// yield: the owner of a committed transaction tells a rival's owner to give way.
pub fn write_yield(
    out: &mut [u8],
    owner: u8,
    serial: u32,
    stamp: u32,
    rival: u8,
    rival_serial: u32,
) -> Written
    ensures value { result ≡ written_of (length out.old) (yield_of rival owner serial stamp rival_serial) }
    ensures out_after { out.new ≡ buffer_after (yield_of rival owner serial stamp rival_serial) out.old }
{
    let h = Head {
        kind: YIELD,
        from: owner,
        to: rival,
        owner,
        serial,
        stamp,
    };
    let r = Rival {
        owner: rival,
        serial: rival_serial,
    };
    let listed = rival_ok(YIELD, owner, rival, r);
    let number = refusal(out.len(), formed(h, 0, 1, 0, 0, listed));
    if number != 0 {
        return refused(number);
    }
    fill_rival(&mut out[..LONGEST_MESSAGE], h, r);
    written(20)
}
