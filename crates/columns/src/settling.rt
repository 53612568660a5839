// Settle steps: column j set to the best weights, which at most n - 1 passes over the fresh column make.
// `GivenArcs`, the bounds and p, n, a stay clauses and arguments: `settle_column` and `settle` are public, and with a struct no clause is plainer (docs/DESIGN-PASS.md).
ghost use Rattle.std.specs.Prelude.{◌≡◌, false, ◌++◌, ◌+◌, ◌*◌, ◌≤◌, ◌<◌, length, take, drop};
ghost use Rattle.algebra.specs.Best.{best};
ghost use Rattle.algebra.specs.Step.{settle, step};
ghost use Rattle.weights.specs.Sizes.{places, weight_words, arc_sum, matrix_sum};
ghost use Rattle.weights.specs.Weights.{join, better_of, language};
ghost use Rattle.weights.specs.Languages.{places_of};
ghost use Rattle.weights.specs.Values.{weight_of, AtMost};
ghost use Rattle.weights.specs.Words.{words};
ghost use Rattle.matrices.specs.Buffers.{row_words, matrix_words, cell, row_in, matrix_in, Square};
ghost use Rattle.matrices.specs.Steps.{GivenArcs, Given};
ghost use Rattle.columns.specs.Columns.{column, renewed, passed, set_column, Held};

use numbers::Node;
use weights::{Places, WEIGHT_WORDS, Weight};

// The better of w and of x joined the weight at `at`; an arc that is no route is left out before the column is read.
#[tactic(auto, unfolding(algebra::specs::Order::pick, matrices::specs::Buffers::cell))]
fn take_entry(p: Places, w: Weight, x: Weight, entries: &[u32], at: usize) -> Weight
    requires { (at + weight_words ≤ length entries.now) × AtMost arc_sum (weight_of x) × AtMost 2147483647 (cell places entries.now at) }
    ensures { weight_of result ≡ better_of (places_of p) (weight_of w) (join (places_of p) (weight_of x) (cell places entries.now at)) }
{
    if matches!(x, Weight::NoRoute) {
        return w;
    }
    let y = words::weight_at(entries, at);
    if weights::gaining::loses(p, w, x, y) {
        return w;
    }
    weights::comparing::better_of(p, w, weights::joining::join(p, x, y))
}

// What a row step puts at row i of the column with target j.
fn renew(p: Places, n: usize, a: &[u32], i: usize, j: usize, entries: &[u32]) -> Weight
    requires { GivenArcs (places_of p) n a.now × Held 2147483647 (places_of p) n entries.now × (i < n) }
    ensures { weight_of result ≡ renewed (places_of p) n (matrix_in places n a.now) j (row_in places entries.now) i }
{
    let from = i * (n * WEIGHT_WORDS);
    let mut w = matrices::fresh::fresh_weight(p, i, j);
    for k in 0..n {
        let x = words::weight_at(a, from + k * WEIGHT_WORDS);
        w = take_entry(p, w, x, entries, k * WEIGHT_WORDS);
    }
    w
}

// Puts w at `at`, and says whether that changed a word.
#[tactic(auto, using(matrices::proofs::Entries::write_is))]
fn put(entries: &mut [u32], at: usize, w: Weight) -> bool
    requires { at + weight_words ≤ length entries.old }
    ensures entries_unchanged { result ≡ false → entries.new ≡ entries.old }
    ensures entries_after { entries.new ≡ take at entries.old ++ (words (weight_of w) ++ drop weight_words (drop at entries.old)) }
{
    if weights::comparing::same(w, words::weight_at(entries, at)) {
        return false;
    }
    words::write_at(entries, at, w);
    true
}

// One pass over the rows of a column; it says whether that changed a word.
fn pass(p: Places, n: usize, a: &[u32], j: usize, entries: &mut [u32]) -> bool
    requires { GivenArcs (places_of p) n a.now × Held matrix_sum (places_of p) n entries.old }
    ensures entries_unchanged { result ≡ false → entries.new ≡ entries.old }
    ensures entries_after { entries.new ≡ row_words n (passed (places_of p) n (matrix_in places n a.now) j n (row_in places entries.old)) ++ drop (n * weight_words) entries.old }
{
    let mut changed = false;
    for i in 0..n {
        let w = renew(p, n, a, i, j, entries);
        // An if: with `changed |= ..` a settle takes 1.18 times as long.
        if put(entries, i * WEIGHT_WORDS, w) {
            changed = true;
        }
    }
    changed
}

// Writes the best weights with target j over the first n entries; a pass that changes nothing is the last.
pub fn settle_column(p: Places, n: usize, a: &[u32], j: usize, entries: &mut [u32])
    requires { GivenArcs (places_of p) n a.now × (n * weight_words ≤ length entries.old) }
    ensures { entries.new ≡ row_words n (column (best (language (places_of p)) n (matrix_in places n a.now)) j) ++ drop (n * weight_words) entries.old }
{
    matrices::fresh::fresh_row(p, n, j, entries);
    for _ in 1..n {
        if !pass(p, n, a, j, entries) {
            return;
        }
    }
}

// Writes column j.
fn write_column(n: usize, j: usize, entries: &[u32], r: &mut [u32])
    requires { Square n r.old × (j < n) × (n * weight_words ≤ length entries.now) }
    ensures { r.new ≡ matrix_words n (set_column j (row_in places entries.now) (matrix_in places n r.old)) }
{
    for i in 0..n {
        let w = words::weight_at(entries, i * WEIGHT_WORDS);
        words::write_at(r, i * (n * WEIGHT_WORDS) + j * WEIGHT_WORDS, w);
    }
}

// The settle step of a node: its column becomes the best weights, whatever it held.
pub fn settle(p: Places, n: usize, a: &[u32], r: &mut [u32], node: Node)
    requires { Given (places_of p) n a.now r.old × (node.0 < n) }
    ensures { r.new ≡ matrix_words n (step (language (places_of p)) n (matrix_in places n a.now) (settle node.0) (matrix_in places n r.old)) }
{
    let j = node.0;
    let mut entries = [0u32; 64];
    settle_column(p, n, a, j, &mut entries);
    write_column(n, j, &entries, r);
}
