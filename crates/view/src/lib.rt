// A received message is shown as a view over its bytes: the slice and where its three sections stand. The functions over a view are thin; the work is
// done on the slice and the places (sections). `show` has plain parameters, so its callers see no view.
#![tactic(auto)]

mod sections;

ghost use Rattle.std.specs.Prelude.{◌≡◌};
ghost use Rattle.view.specs.Views.{header_of, counts_in, entry_in, rival_in, word_in, view_of, shown_of};

pub use sections::{counts_in, entry_in, header_of, places_of, rival_in, word_in};
use wire::{Entry, Rival};

// A view: the bytes, and the place of each section's count, behind which its items stand.
#[derive(Clone, Copy)]
pub struct View<'a> {
    pub bytes: &'a [u8],
    pub entries: u16,
    pub rivals: u16,
    pub words: u16,
}

// Where the sections stand.
#[derive(Clone, Copy)]
pub struct Places {
    pub entries: u16,
    pub rivals: u16,
    pub words: u16,
}

// The header of a message.
#[derive(Clone, Copy)]
pub struct Header {
    pub kind: u8,
    pub from: u8,
    pub to: u8,
    pub owner: u8,
    pub serial: u32,
    pub stamp: u32,
}

// How many items each section has.
#[derive(Clone, Copy)]
pub struct Counts {
    pub entries: u8,
    pub rivals: u8,
    pub words: u8,
}

// What a message shows: its header, how many items each section has, its i-th entry and its i-th rival, and its word; zeros where there is none.
#[derive(Clone, Copy)]
pub struct Shown {
    pub header: Header,
    pub counts: Counts,
    pub entry: Entry,
    pub rival: Rival,
    pub word: u8,
}

// The view of a slice. Ruled out: another slice's bytes; places that do not follow the message's own counts.
pub fn made<'a>(bytes: &'a [u8]) -> View<'a>
    ensures { result ≡ view_of bytes.entry }
{
    let p = places_of(bytes);
    View {
        bytes,
        entries: p.entries,
        rivals: p.rivals,
        words: p.words,
    }
}

// What a view shows: the header, how many items each section has, the i-th entry, the i-th rival, the word.
// Ruled out: the rivals' section read for the entries; an item past the count.
pub fn seen_header<'a>(v: View<'a>) -> Header
    ensures { result ≡ header_of v.entry.bytes.now }
{
    header_of(v.bytes)
}

pub fn seen_counts<'a>(v: View<'a>) -> Counts
    ensures { result ≡ counts_in v.entry.bytes.now v.entry.entries v.entry.rivals v.entry.words }
{
    counts_in(v.bytes, v.entries, v.rivals, v.words)
}

pub fn seen_entry<'a>(v: View<'a>, i: u8) -> Entry
    ensures { result ≡ entry_in v.entry.bytes.now v.entry.entries i }
{
    entry_in(v.bytes, v.entries, i)
}

pub fn seen_rival<'a>(v: View<'a>, i: u8) -> Rival
    ensures { result ≡ rival_in v.entry.bytes.now v.entry.rivals i }
{
    rival_in(v.bytes, v.rivals, i)
}

pub fn seen_word<'a>(v: View<'a>) -> u8
    ensures { result ≡ word_in v.entry.bytes.now v.entry.words }
{
    word_in(v.bytes, v.words)
}

// What the message in a slice shows. Ruled out: an entry of another index; a rival found by a place that leaves out the entries.
pub fn show(bytes: &[u8], i: u8) -> Shown
    ensures { result ≡ shown_of bytes.now i }
{
    let v = made(bytes);
    Shown {
        header: seen_header(v),
        counts: seen_counts(v),
        entry: seen_entry(v, i),
        rival: seen_rival(v, i),
        word: seen_word(v),
    }
}
