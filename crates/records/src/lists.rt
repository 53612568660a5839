// The two lists of records, each with its count, and nothing after them.
// The bounds on offsets and on a language's count stay clauses: `list_end` and `body_check` are public, and a type with them would ask more;
// so do the file, the head and the list, which a struct would only rename.
ghost use Rattle.std.specs.Prelude.{◌≡◌, ◌+◌, ◌≤◌};
ghost use Rattle.weights.specs.Sizes.{places};
ghost use Rattle.records.specs.Records.{records_check, record_list_check, list_end, body_check};

use super::Listing;
use super::checks::{record_check, record_length};
use fields::Head;
use file_bytes::two;
use refusals::Refusal;

// `count` records in a row, each after the one before it.
#[tactic(auto, using(crate::proofs::Remaining::records_more, crate::proofs::Remaining::records_none))]
fn records_check(file: &[u8], h: Head, list: Listing, first: u32, count: u32) -> Result<(), Refusal>
    requires { (first ≤ 900000) × (count ≤ 65535) × (h.language.count ≤ places) }
    ensures { result ≡ records_check file.now h list first 0 count }
{
    let size = record_length(list, h.mode, h.language.count);
    let mut low = 0;
    for e in 0..count {
        let at = first + e * size;
        record_check(file, h, list, at, low)?;
        low = two(file, at) + 1;
    }
    Ok(())
}

// A list of records with its count.
#[tactic(auto, unfolding(crate::specs::Records::record_list_check))]
fn record_list_check(file: &[u8], h: Head, list: Listing, at: u32) -> Result<(), Refusal>
    requires { (at ≤ 800000) × (h.language.count ≤ places) }
    ensures { result ≡ record_list_check file.now h list at }
{
    let first = at + 2;
    if file.len() < first as usize {
        return Err(Refusal::Bytes {
            which: 0,
            place: at,
        });
    }
    records_check(file, h, list, first, two(file, at))
}

// The offset after a list.
#[tactic(auto, unfolding(crate::specs::Records::list_end))]
pub fn list_end(file: &[u8], h: Head, list: Listing, at: u32) -> u32
    requires { (at ≤ 800000) × (h.language.count ≤ places) }
    ensures { (result ≡ list_end file.now h list at) × (result ≤ at + 786422) }
{
    at + 2 + two(file, at) * record_length(list, h.mode, h.language.count)
}

// Both lists, and nothing after them.
#[tactic(auto, unfolding(crate::specs::Records::body_check))]
pub fn body_check(file: &[u8], h: Head, at: u32) -> Result<(), Refusal>
    requires { (at ≤ 23) × (h.language.count ≤ places) }
    ensures { result ≡ body_check file.now h at }
{
    record_list_check(file, h, Listing::Arcs, at)?;
    let after_arcs = list_end(file, h, Listing::Arcs, at);
    record_list_check(file, h, Listing::Attachments, after_arcs)?;
    let end = list_end(file, h, Listing::Attachments, after_arcs);
    if (end as usize) < file.len() {
        return Err(Refusal::Bytes {
            which: 0,
            place: end,
        });
    }
    Ok(())
}
