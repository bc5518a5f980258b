// Which bytes are a message: the length, then everything else.
ghost use Rattle.std.specs.Prelude.{◌≡◌, not, ◌&&◌, ◌||◌, [], ◌+◌, ◌*◌, ◌≤◌, ◌<◌, eqb, leb, length};
ghost use Rattle.wire.specs.Formed.{counts_ok, direction_ok, content_ok, entry_ok, rival_ok};
ghost use Rattle.wire.specs.Encode.{entry_size, rival_size, size_with};
ghost use Rattle.wire.specs.Decode.{kind_of, entry_at, rival_at, items_from, entries_place, accepted, check_of};
ghost use Rattle.wire.specs.Headed.{headed, head_ok};
ghost use Rattle.numbers.specs.Numbers.{wrong_length};
ghost use Rattle.numbers.specs.Outcome.{number_of};
ghost use Rattle.wire.specs.Run.{run, object_of, owner_in, word_with};

use crate::read::{count_at, entries, entry_at, head, kind, rival_at, word_at};
use crate::{ENTRY, Entry, HEADER, Head, RIVAL, Rival};
use numbers::{HIGHEST, LONGEST_MESSAGE, NODES_END, OBJECTS_END, Refusal, SHORTEST_MESSAGE, both};

// The counts of a vote: a no (word 0) names no rivals.
// Ruled out: a no with a rival; a yes with 13 rivals.
fn vote_counts(entries: usize, rivals: usize, words: usize, word: u8) -> bool
    ensures { result ≡ counts_ok 4 entries rivals words word }
{
    let rest = both(entries == 0, words == 1);
    match word {
        0 => both(rivals == 0, rest),
        1 => match rivals {
            0..=12 => rest,
            _ => false,
        },
        _ => false,
    }
}

// The counts of an outcome: an abort (word 0) has no entries, a commit 1 to 8.
// Ruled out: a commit of nothing; an abort with entries.
fn outcome_counts(entries: usize, rivals: usize, words: usize, word: u8) -> bool
    ensures { result ≡ counts_ok 5 entries rivals words word }
{
    let rest = both(rivals == 0, words == 1);
    match word {
        0 => both(entries == 0, rest),
        1 => match entries {
            1..=8 => rest,
            _ => false,
        },
        _ => false,
    }
}

// The kind decides the counts of entries, rivals and words.
// Ruled out: an ask for nine objects; kind 8.
pub fn counts_ok(kind: u8, entries: usize, rivals: usize, words: usize, word: u8) -> bool
    ensures { result ≡ counts_ok kind entries rivals words word }
{
    match kind {
        // fetch, copy
        1 | 2 => match entries {
            1 => both(rivals == 0, words == 0),
            _ => false,
        },
        // ask
        3 => match entries {
            1..=8 => both(rivals == 0, words == 0),
            _ => false,
        },
        4 => vote_counts(entries, rivals, words, word),
        5 => outcome_counts(entries, rivals, words, word),
        // done
        6 => both(entries == 0, both(rivals == 0, words == 0)),
        // yield
        7 => match rivals {
            1 => both(entries == 0, words == 0),
            _ => false,
        },
        _ => false,
    }
}

// The content of an entry by its kind: a fetch has none, a copy any, an ask or a commit a read without value or a write below the last version.
fn content_ok(kind: u8, e: Entry) -> bool
    ensures { result ≡ content_ok kind e }
{
    match kind {
        1 => both(e.version == 0, e.value == 0),
        2 => true,
        _ => {
            if e.mode == 0 {
                e.value == 0
            } else {
                e.version < HIGHEST
            }
        }
    }
}

// An entry is well formed.
// Ruled out: object 128; a fetch that names a version; an ask that reads with a value.
pub fn entry_ok(kind: u8, e: Entry) -> bool
    ensures { result ≡ entry_ok kind e }
{
    both(
        e.object < OBJECTS_END,
        both(e.mode < 2, content_ok(kind, e)),
    )
}

// One more entry: its object is at least lo, and it is well formed.
// Ruled out: the same object twice; an entry that ascends and is not well formed.
pub fn entry_fits(kind: u8, lo: usize, e: Entry) -> bool
    ensures { result ≡ (leb lo e.object && entry_ok kind e) }
{
    both(lo <= usize::from(e.object), entry_ok(kind, e))
}

// A yield goes to its rival's owner.
fn placed(kind: u8, rival: u8, to: u8) -> bool
    ensures { result ≡ (not (eqb kind 7) || eqb rival to) }
{
    kind != 7 || rival == to
}

// A rival is well formed.
// Ruled out: the owner as its own rival; a yield to another than its rival's owner.
pub fn rival_ok(kind: u8, owner: u8, to: u8, r: Rival) -> bool
    ensures { result ≡ rival_ok kind owner to r }
{
    both(
        r.owner < NODES_END,
        both(
            r.owner != owner,
            both(1 <= r.serial, placed(kind, r.owner, to)),
        ),
    )
}

// One more rival: its owner is at least lo, and it is well formed.
fn rival_fits(kind: u8, owner: u8, to: u8, lo: usize, r: Rival) -> bool
    ensures { result ≡ (leb lo r.owner && rival_ok kind owner to r) }
{
    both(lo <= usize::from(r.owner), rival_ok(kind, owner, to, r))
}

// One above an item's key.
// Ruled out: 0 above 255; the key itself.
pub fn above(key: u8) -> usize
    ensures { result ≡ key + 1 }
{
    usize::from(key) + 1
}

// The entries ascend strictly, and each is well formed.
fn entries_ok(s: &[u8], kind: u8, n: usize) -> bool
    requires { (n < 256) × (entries_place + 14 * n ≤ length s.now) }
    ensures { result ≡ run object_of (entry_ok kind) 0 (items_from entry_at entry_size n s.now entries_place) }
{
    let mut lo = 0;
    for i in 0..n {
        let at = HEADER + 1 + ENTRY * i;
        let e = entry_at(&s[at..at + ENTRY], 0);
        if !entry_fits(kind, lo, e) {
            return false;
        }
        lo = above(e.object);
    }
    true
}

// The rivals from a place on ascend strictly, and each is well formed.
fn rivals_ok(s: &[u8], kind: u8, owner: u8, to: u8, place: usize, n: usize) -> bool
    requires { (n < 256) × (place < 4096) × (place + 5 * n ≤ length s.now) }
    ensures { result ≡ run owner_in (rival_ok kind owner to) 0 (items_from rival_at rival_size n s.now place) }
{
    let mut lo = 0;
    for i in 0..n {
        let at = place + RIVAL * i;
        let r = rival_at(&s[at..at + RIVAL], 0);
        if !rival_fits(kind, owner, to, lo, r) {
            return false;
        }
        lo = above(r.owner);
    }
    true
}

// The names of nodes, serial and stamp; odd kinds come from the owner, even ones go to it.
// Ruled out: node 13; serial 0; a vote that goes to another than the owner.
pub fn head_ok(h: Head) -> bool
    ensures { result ≡ head_ok h }
{
    let named = both(
        h.from < NODES_END,
        both(
            h.to < NODES_END,
            both(h.owner < NODES_END, both(1 <= h.serial, 1 <= h.stamp)),
        ),
    );
    both(named, directed(h))
}

fn directed(h: Head) -> bool
    ensures { result ≡ direction_ok (headed h [] [] []) }
{
    if h.kind % 2 == 1 {
        h.from == h.owner
    } else {
        h.to == h.owner
    }
}

// The length is that of the sections, and the kind allows the counts n, r and w of entries, rivals and words.
fn sized(s: &[u8], n: usize, r: usize, w: usize) -> bool
    requires { (n < 256) × (r < 256) × (w < 256) }
    ensures { result ≡ (eqb (length s.now) (size_with n r w) && counts_ok (kind_of s.now) n r w (word_with s.now n r w)) }
{
    let word = word_at(s, SHORTEST_MESSAGE + ENTRY * n + RIVAL * r, w);
    both(
        s.len() == SHORTEST_MESSAGE + ENTRY * n + RIVAL * r + w,
        counts_ok(kind(s), n, r, w, word),
    )
}

// Whether the bytes are a message, the bounds on the length aside. Each count is read once, and the sections come first, so that the loops run over
// few items that are there.
fn is_accepted(s: &[u8]) -> bool
    ensures { result ≡ accepted s.now }
{
    let n = entries(s);
    let at = HEADER + 1 + ENTRY * n;
    let r = count_at(s, at);
    let place = at + 1;
    let w = count_at(s, place + RIVAL * r);
    if sized(s, n, r, w) {
        let h = head(s);
        let listed = both(
            entries_ok(s, h.kind, n),
            rivals_ok(s, h.kind, h.owner, h.to, place, r),
        );
        both(head_ok(h), listed)
    } else {
        false
    }
}

// Whether bytes have a message's length. Ruled out: no to 128 bytes; yes to 14.
#[tactic(auto, unfolding(crate::specs::Decode::check_of))]
pub fn has_length(s: &[u8]) -> bool
    ensures { result ≡ not (eqb (check_of s.now) wrong_length) }
{
    SHORTEST_MESSAGE <= s.len() && s.len() <= LONGEST_MESSAGE
}

// Whether bytes are a message: refused for their length, and where they are garbled.
// Ruled out: bytes left over accepted; a rival that is the owner accepted; 'garbled' for a message of 14 bytes.
#[tactic(auto, unfolding(crate::specs::Decode::check_of))]
pub fn check(s: &[u8]) -> Result<(), Refusal>
    ensures { number_of result ≡ check_of s.now }
{
    if !has_length(s) {
        return Err(Refusal::Length);
    }
    if !is_accepted(s) {
        return Err(Refusal::Garbled);
    }
    Ok(())
}
