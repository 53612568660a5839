// The forwarding sum: F(i,d) is the best over k of R(i,k) applied to M(k,d).
// `GivenTable` and what it is about stay a clause and arguments: `forward_table` is public, and with a struct no clause is plainer (docs/DESIGN-PASS.md).
#![tactic(auto)]

ghost use Rattle.std.specs.Prelude.{◌≡◌, ◌++◌, ◌*◌, ◌≤◌, ◌<◌, length, drop};
ghost use Rattle.algebra.specs.Order.{pick};
ghost use Rattle.algebra.specs.Modes.{forwarded};
ghost use Rattle.weights.specs.Sizes.{places, entry_words};
ghost use Rattle.weights.specs.Weights.{language};
ghost use Rattle.weights.specs.Languages.{places_of};
ghost use Rattle.weights.specs.Values.{weight_of, AtMost};
ghost use Rattle.matrices.specs.Buffers.{matrix_in};
ghost use Rattle.modes.specs.Entries.{entry_of, applied, mode_of};
ghost use Rattle.tables.specs.Tables.{table_row_words, table_words, table_in, Sized};
ghost use Rattle.tables.specs.Parts.{InTable, GivenTable};
ghost use Rattle.modes.specs.Gains.{weight_in};

use modes::{Entry, Mode, applying, comparing, gaining};
use numbers::{Destination, Node};
use tables::entries;
use weights::{ENTRY_WORDS, Places, WEIGHT_WORDS, Weight};

// The better of e and of x applied to the entry of k and d; what is no route is left out before the table is read.
fn take_node(
    p: Places,
    mode: Mode,
    e: Entry,
    x: Weight,
    s: &[u32],
    m: usize,
    k: Node,
    d: Destination,
) -> Entry
    requires { InTable m k.0 d.0 s.now × AtMost 2147483647 (weight_of x) × AtMost 2147483647 (weight_in (table_in places m s.now k.0 d.0)) }
    ensures { entry_of result ≡ pick (mode_of mode (places_of p)).entries (entry_of e) (applied (places_of p) (weight_of x) (table_in places m s.now k.0 d.0)) }
{
    let Weight::Route { .. } = x else {
        return e;
    };
    let y = entries::look_up(s, m, k, d);
    if gaining::loses(p, mode, e, x, y) {
        return e;
    }
    comparing::better_of(p, mode, e, applying::apply(p, x, y))
}

// The entry that the node forwards to the destination by.
pub fn forward_entry(
    p: Places,
    mode: Mode,
    n: usize,
    m: usize,
    r: &[u32],
    s: &[u32],
    node: Node,
    destination: Destination,
) -> Entry
    requires { GivenTable mode (places_of p) n m r.now s.now × (node.0 < n) × (destination.0 < m) }
    ensures { entry_of result ≡ forwarded (language (places_of p)) (mode_of mode (places_of p)) n (matrix_in places n r.now) (table_in places m s.now) node.0 destination.0 }
{
    let from = node.0 * (n * WEIGHT_WORDS);
    let mut e = Entry::Empty;
    for k in 0..n {
        let x = words::weight_at(r, from + k * WEIGHT_WORDS);
        e = take_node(p, mode, e, x, s, m, Node(k), destination);
    }
    e
}

// Writes the node's row over the first m entries of row.
fn forward_row(
    p: Places,
    mode: Mode,
    n: usize,
    m: usize,
    r: &[u32],
    s: &[u32],
    node: Node,
    row: &mut [u32],
)
    requires { GivenTable mode (places_of p) n m r.now s.now × (node.0 < n) × (m * entry_words ≤ length row.old) }
    ensures { row.new ≡ table_row_words m (forwarded (language (places_of p)) (mode_of mode (places_of p)) n (matrix_in places n r.now) (table_in places m s.now) node.0) ++ drop (m * entry_words) row.old }
{
    for d in 0..m {
        let e = forward_entry(p, mode, n, m, r, s, node, Destination(d));
        entries::write_at(row, d * ENTRY_WORDS, e);
    }
}

// Writes the forwarding table.
pub fn forward_table(p: Places, mode: Mode, n: usize, m: usize, r: &[u32], s: &[u32], f: &mut [u32])
    requires { GivenTable mode (places_of p) n m r.now s.now × Sized n m f.old }
    ensures { f.new ≡ table_words n m (forwarded (language (places_of p)) (mode_of mode (places_of p)) n (matrix_in places n r.now) (table_in places m s.now)) }
{
    for i in 0..n {
        let at = i * (m * ENTRY_WORDS);
        forward_row(p, mode, n, m, r, s, Node(i), &mut f[at..]);
    }
}
