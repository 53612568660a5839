// The second pass: a file without a fault is written into the two buffers.
// `SmallHead` and the bounds on offsets stay clauses: `write` is public, and a type with them would ask more of a caller; so
// do the file, the head and the list, which a struct would only rename. The mode is the file's number.
ghost use Rattle.std.specs.Prelude.{◌≡◌, cond, ◌++◌, ◌+◌, ◌*◌, ◌≤◌, ◌<◌, ltb, length, drop, replicate, Ok};
ghost use Rattle.std.proofs.lemmas.List.Edits.{sets};
ghost use Rattle.weights.specs.Sizes.{places, ones};
ghost use Rattle.weights.specs.Values.{weight_of};
ghost use Rattle.weights.specs.Words.{words};
ghost use Rattle.file_bytes.specs.Bytes.{two_at};
ghost use Rattle.records.specs.Records.{ends_at, list_end, body_check};
ghost use Rattle.contents.specs.Contents.{words_each, size_of, record_weight, outside_at, with_outside, record_words, listed_table, list_over};
ghost use Rattle.fields.specs.Parts.{SmallHead};
ghost use Rattle.file_bytes.specs.Offsets.{ByteOffset, RecordOffset};
ghost use Rattle.records.specs.Parts.{InRange, Listed};
ghost use Rattle.contents.specs.Parts.{place_of};

use fields::Head;
use file_bytes::two;
use records::checks::{ends_at, record_length};
use records::lists::list_end;
use records::{Ends, Listing};
use weights::{ENTRY_WORDS, ONES, WEIGHT_WORDS, Weight};

// Value k of a record, at an offset; 0 where the language has no such component.
fn value(file: &[u8], count: u32, k: u32, at: u32) -> u32
    requires { ByteOffset at }
    ensures { result ≡ cond (ltb k count) (two_at file.now at) 0 }
{
    if k < count { two(file, at) } else { 0 }
}

// The weight of the record at an offset.
#[tactic(auto, using(crate::proofs::Values::four_words_lem))]
fn record_weight(file: &[u8], h: Head, at: u32) -> Weight
    requires { RecordOffset at × (h.language.count ≤ places) }
    ensures { words (weight_of result) ≡ words (record_weight file.now h at) }
{
    let count = h.language.count;
    Weight::Route {
        first: value(file, count, 0, at + 2),
        second: value(file, count, 1, at + 4),
        third: value(file, count, 2, at + 6),
        fourth: value(file, count, 3, at + 8),
    }
}

// The outside number t of the attachment at an offset.
#[tactic(auto, unfolding(crate::specs::Contents::outside_at))]
fn outside(file: &[u8], h: Head, at: u32) -> u32
    requires { RecordOffset at × (h.language.count ≤ places) }
    ensures { result ≡ outside_at file.now h at }
{
    if h.mode < 2 {
        0
    } else {
        two(file, at + 2 + h.language.count * 2)
    }
}

// Writes the words of an arc, or of an attachment with its t, from a place on.
#[tactic(auto, using(crate::proofs::Storing::put_last))]
fn put(list: Listing, w: Weight, t: u32, at: usize, r: &mut [u32])
    requires { at + words_each list ≤ length r.old }
    ensures { r.new ≡ sets r.old at (with_outside list (words (weight_of w)) t) }
{
    words::write_at(r, at, w);
    if let Listing::Attachments = list {
        r[at + WEIGHT_WORDS] = t;
    }
}

// Where entry (i, j) begins in a table of so many columns, each entry of so many words.
fn place_in(i: usize, j: usize, columns: usize, words: usize) -> usize
    requires { (i < 16) × (j < 32) × (columns ≤ 32) × (words ≤ 5) }
    ensures { result ≡ i * (columns * words) + j * words }
{
    i * (columns * words) + j * words
}

// The place of a record's first word.
fn place_of(h: Head, e: Ends) -> usize
    requires { SmallHead h × InRange h e }
    ensures { result ≡ place_of h e }
{
    match e {
        Ends::Arc(from, to) => place_in(from.0, to.0, h.n, WEIGHT_WORDS),
        Ends::Attachment(node, to) => place_in(node.0, to.0, h.m, ENTRY_WORDS),
    }
}

// The words that are written: n x n x 4 for the arcs, n x m x 5 for the attachments.
#[tactic(auto, unfolding(crate::specs::Contents::size_of))]
fn size_of(h: Head, list: Listing) -> usize
    requires { SmallHead h }
    ensures { result ≡ size_of h list }
{
    match list {
        Listing::Arcs => h.n * (h.n * WEIGHT_WORDS),
        Listing::Attachments => h.n * (h.m * ENTRY_WORDS),
    }
}

// Writes the record at an offset of the file.
#[tactic(auto, using(crate::proofs::Storing::room))]
fn store(file: &[u8], h: Head, list: Listing, at: u32, r: &mut [u32])
    requires { SmallHead h × RecordOffset at × InRange h (ends_at file.now list at) × (size_of h list ≤ length r.old) }
    ensures { r.new ≡ sets r.old (place_of h (ends_at file.now list at)) (record_words file.now h list at) }
{
    let place = place_of(h, ends_at(file, list, at));
    let w = record_weight(file, h, at);
    let t = outside(file, h, at);
    put(list, w, t, place, r);
}

// Makes the first words those of no route.
fn clear(size: usize, r: &mut [u32])
    requires { size ≤ length r.old }
    ensures { r.new ≡ replicate size ones ++ drop size r.old }
{
    r[..size].fill(ONES);
}

// Writes a whole list of records.
fn fill(file: &[u8], h: Head, list: Listing, first: u32, count: u32, r: &mut [u32])
    requires { SmallHead h × (first ≤ 900000) × (count ≤ 65535) × Listed file.now h list first count × (size_of h list ≤ length r.old) }
    ensures { r.new ≡ listed_table file.now h list first count ++ drop (size_of h list) r.old }
{
    clear(size_of(h, list), r);
    let size = record_length(list, h.mode, h.language.count);
    for e in 0..count {
        store(file, h, list, first + e * size, r);
    }
}

// Writes both lists of a file whose body has no fault.
#[tactic(auto, using(records::proofs::Listed::body_listed, crate::proofs::Sizes::size_arcs, crate::proofs::Sizes::size_attachments))]
pub fn write(file: &[u8], h: Head, next: u32, arcs: &mut [u32], mapping: &mut [u32])
    requires { SmallHead h × (next ≤ 23) × (body_check file.now h next ≡ Ok tt) × (1024 ≤ length arcs.old) × (2560 ≤ length mapping.old) }
    ensures arcs_after { arcs.new ≡ list_over file.now h Listing.Arcs next arcs.old }
    ensures mapping_after { mapping.new ≡ list_over file.now h Listing.Attachments (list_end file.now h Listing.Arcs next) mapping.old }
{
    fill(file, h, Listing::Arcs, next + 2, two(file, next), arcs);
    let after_arcs = list_end(file, h, Listing::Arcs, next);
    fill(
        file,
        h,
        Listing::Attachments,
        after_arcs + 2,
        two(file, after_arcs),
        mapping,
    );
}
