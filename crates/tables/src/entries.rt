// Entries in buffers: looked up and read by a node and a destination, with malformed patterns told apart, and written.
// `InTable` stays a clause: `look_up` and `read_entry` are public, and a type with it would ask more of a caller.
ghost use Rattle.std.specs.Prelude.{◌≡◌, ◌+◌, ◌≤◌, ◌<◌, length};
ghost use Rattle.std.proofs.lemmas.List.Edits.{sets};
ghost use Rattle.weights.specs.Sizes.{places, entry_words};
ghost use Rattle.weights.specs.Languages.{places_of};
ghost use Rattle.weights.specs.Values.{weight_of};
ghost use Rattle.modes.specs.Entries.{entry_of};
ghost use Rattle.tables.specs.Tables.{words_of, reading_entry, entry_read_of, entry_at, table_place, table_in};
ghost use Rattle.tables.specs.Parts.{InTable, route_read};

use modes::{Entry, Mode, applying, choosing};
use numbers::{Destination, Node};
use weights::{ENTRY_WORDS, ONES, Places, WEIGHT_WORDS, Weight};

// Where the entry of a node and a destination begins.
fn place(m: usize, node: Node, destination: Destination) -> usize
    requires { (node.0 < 16) × (destination.0 < m) × (m ≤ 32) }
    ensures { result ≡ table_place m node.0 destination.0 }
{
    node.0 * (m * ENTRY_WORDS) + destination.0 * ENTRY_WORDS
}

// The entry of a node and a destination, in a table that has passed its check.
pub fn look_up(s: &[u32], m: usize, node: Node, destination: Destination) -> Entry
    requires { InTable m node.0 destination.0 s.now }
    ensures { entry_of result ≡ table_in places m s.now node.0 destination.0 }
{
    let at = place(m, node, destination);
    // All five before the test, as in `words::weight_at`.
    let first = s[at];
    let second = s[at + 1];
    let third = s[at + 2];
    let fourth = s[at + 3];
    let t = s[at + 4];
    if words::all_ones(&[first, second, third, fourth, t]) {
        return Entry::Empty;
    }
    Entry::Mapped {
        first,
        second,
        third,
        fourth,
        t,
    }
}

// What a weight that reads well stands for with the word of t: empty is ones in every word, and no route has no t.
fn read_with(mode: Mode, w: Weight, t: u32) -> Option<Entry>
    ensures { entry_read_of result ≡ route_read mode (weight_of w) t }
{
    match w {
        Weight::Route { .. } if t <= choosing::largest_t(mode) => Some(applying::with_t(w, t)),
        Weight::NoRoute if t == ONES => Some(Entry::Empty),
        _ => None,
    }
}

// The entry of a node and a destination, a sum being at most cap; none where its words are malformed.
pub fn read_entry(
    p: Places,
    mode: Mode,
    cap: u32,
    s: &[u32],
    m: usize,
    node: Node,
    destination: Destination,
) -> Option<Entry>
    requires { InTable m node.0 destination.0 s.now }
    ensures { entry_read_of result ≡ reading_entry mode cap (places_of p) (entry_at s.now (table_place m node.0 destination.0)) }
{
    let at = place(m, node, destination);
    let w = words::read_at(p, cap, s, at)?;
    read_with(mode, w, s[at + 4])
}

// Writes the words of an entry from `at` on.
pub fn write_at(s: &mut [u32], at: usize, e: Entry)
    requires { at + entry_words ≤ length s.old }
    ensures { s.new ≡ sets s.old at (words_of (entry_of e)) }
{
    let Entry::Mapped { t, .. } = e else {
        s[at..at + ENTRY_WORDS].fill(ONES);
        return;
    };
    words::write_at(s, at, e.weight());
    s[at + WEIGHT_WORDS] = t;
}
