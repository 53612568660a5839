// One record: two ends, a value for each component, and t in an attachment of modes 2 and 3. Its checks, in order: 1, 7, 8, 6.
// The bounds on offsets and on a language's count stay clauses: `record_length` and `record_check` are public, and a type with them would ask more;
// so do the file, the head and the list, which a struct would only rename. The mode is the file's number.
ghost use Rattle.std.specs.Prelude.{◌≡◌, ◌+◌, ◌≤◌, ltb};
ghost use Rattle.refusals.specs.declared.Refusal.TheVariants.{NoSuch};
ghost use Rattle.refusals.specs.Checks.{unless};
ghost use Rattle.weights.specs.Sizes.{places};
ghost use Rattle.weights.specs.Languages.{components_of};
ghost use Rattle.records.specs.Records.{record_length, ends_at, ends_check, values_check, record_check};
ghost use Rattle.file_bytes.specs.Offsets.{ByteOffset, RecordOffset};
ghost use Rattle.records.specs.Parts.{component_at};

use super::{Ends, Listing};
use fields::Head;
use file_bytes::{byte, two};
use numbers::{Destination, Node};
use refusals::Refusal;
use weights::{ARC_SUM, Component, Language};
use words::in_range;

// The bytes of one record.
#[tactic(auto, unfolding(crate::specs::Records::record_length))]
pub fn record_length(list: Listing, mode: u32, count: u32) -> u32
    requires { count ≤ places }
    ensures { (result ≡ record_length list mode count) × (result ≤ 12) }
{
    let base = 2 + count * 2;
    match list {
        Listing::Arcs => base,
        Listing::Attachments if mode < 2 => base,
        Listing::Attachments => base + 2,
    }
}

// The ends of the record at an offset.
pub fn ends_at(file: &[u8], list: Listing, at: u32) -> Ends
    requires { ByteOffset at }
    ensures { result ≡ ends_at file.now list at }
{
    let x = byte(file, at) as usize;
    let y = byte(file, at + 1) as usize;
    match list {
        Listing::Arcs => Ends::Arc(Node(x), Node(y)),
        Listing::Attachments => Ends::Attachment(Node(x), Destination(y)),
    }
}

// An end exists: it is one of so many.
fn end_check(place: u32, end: usize, count: usize) -> Result<(), Refusal>
    ensures { result ≡ unless (ltb end count) (NoSuch 0 place) }
{
    if count <= end {
        return Err(Refusal::NoSuch { which: 0, place });
    }
    Ok(())
}

// Both ends exist.
#[tactic(auto, unfolding(crate::specs::Records::ends_check))]
fn ends_check(h: Head, at: u32, e: Ends) -> Result<(), Refusal>
    requires { ByteOffset at }
    ensures { result ≡ ends_check h at e }
{
    match e {
        Ends::Arc(from, to) => {
            end_check(at, from.0, h.n)?;
            end_check(at + 1, to.0, h.n)
        }
        Ends::Attachment(node, to) => {
            end_check(at, node.0, h.n)?;
            end_check(at + 1, to.0, h.m)
        }
    }
}

// The component at place k.
fn component_at(l: Language, k: u32) -> Component
    ensures { result ≡ component_at l k }
{
    match k {
        0 => l.first,
        1 => l.second,
        2 => l.third,
        _ => l.fourth,
    }
}

// The values of a record, which begin at an offset.
#[tactic(auto, using(crate::proofs::Remaining::values_more, crate::proofs::Remaining::values_none, crate::proofs::Remaining::values_all))]
fn values_check(file: &[u8], l: Language, at: u32) -> Result<(), Refusal>
    requires { ByteOffset (at + 8) × (l.count ≤ places) }
    ensures { result ≡ values_check file.now (components_of l) at }
{
    for k in 0..l.count {
        let place = at + k * 2;
        if !in_range(component_at(l, k), ARC_SUM, two(file, place)) {
            return Err(Refusal::Value { which: 0, place });
        }
    }
    Ok(())
}

// The record at an offset, after records whose first two bytes are below `low`.
#[tactic(auto, unfolding(crate::specs::Records::record_check))]
pub fn record_check(file: &[u8], h: Head, list: Listing, at: u32, low: u32) -> Result<(), Refusal>
    requires { RecordOffset at × (h.language.count ≤ places) }
    ensures { result ≡ record_check file.now h list at low }
{
    let size = record_length(list, h.mode, h.language.count);
    if file.len() < (at + size) as usize {
        return Err(Refusal::Bytes {
            which: 0,
            place: at,
        });
    }
    ends_check(h, at, ends_at(file, list, at))?;
    if two(file, at) < low {
        return Err(Refusal::NotAscending {
            which: 0,
            place: at,
        });
    }
    values_check(file, h.language, at + 2)
}
