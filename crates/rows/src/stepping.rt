// Row steps: row i worked out anew beside the matrix, and put in its place where every sum fits.
// `Given`, the bounds and p, n, a, r stay clauses and arguments: `new_row` and `row_step` are public, and with a struct no clause is plainer (docs/DESIGN-PASS.md).
ghost use Rattle.std.specs.Prelude.{◌≡◌, ◌++◌, ◌*◌, ◌≤◌, ◌<◌, length, take, drop};
ghost use Rattle.algebra.specs.Step.{routed};
ghost use Rattle.weights.specs.Sizes.{places, weight_words};
ghost use Rattle.weights.specs.Weights.{language};
ghost use Rattle.weights.specs.Languages.{places_of};
ghost use Rattle.weights.specs.Values.{weight_of};
ghost use Rattle.matrices.specs.Buffers.{row_words, matrix_words, matrix_in};
ghost use Rattle.matrices.specs.Steps.{every, row_fits, stepped, Given};
ghost use Rattle.matrices.specs.Parts.{low, low_at};

use matrices::fresh;
use numbers::Node;
use weights::{MATRIX_SUM, Places, WEIGHT_WORDS, Weight};

// Writes the row that row step i makes over the first n entries of row.
pub fn new_row(p: Places, n: usize, a: &[u32], r: &[u32], i: usize, row: &mut [u32])
    requires { Given (places_of p) n a.now r.now × (i < n) × (n * weight_words ≤ length row.old) }
    ensures { row.new ≡ row_words n (routed (language (places_of p)) n (matrix_in places n a.now) (matrix_in places n r.now) i) ++ drop (n * weight_words) row.old }
{
    let single = arcs::is_single(p);
    fresh::fresh_row(p, n, i, row);
    for k in 0..n {
        arcs::take_arc(p, single, n, a, r, i, k, row);
    }
}

fn is_low(w: Weight) -> bool
    ensures { result ≡ low (weight_of w) }
{
    let Weight::Route {
        first,
        second,
        third,
        fourth,
    } = w
    else {
        return true;
    };
    first <= MATRIX_SUM && second <= MATRIX_SUM && third <= MATRIX_SUM && fourth <= MATRIX_SUM
}

// No value of the first n entries is above 983,025.
fn row_low(n: usize, row: &[u32]) -> bool
    requires { (n ≤ 16) × (n * weight_words ≤ length row.now) }
    ensures { result ≡ every n (low_at row.now) }
{
    (0..n).all(|j| is_low(words::weight_at(row, j * WEIGHT_WORDS)))
}

// Writes the row that it is lent, and no more.
fn write_row(row: &[u32], part: &mut [u32])
    requires { length part.old ≤ length row.now }
    ensures { part.new ≡ take (length part.old) row.now }
{
    part.copy_from_slice(&row[..part.len()]);
}

// The row step of a node: done, or refused, with the matrix untouched, where it would store a sum above 983,025.
pub fn row_step(p: Places, n: usize, a: &[u32], r: &mut [u32], node: Node) -> bool
    requires { Given (places_of p) n a.now r.old × (node.0 < n) }
    ensures value { result ≡ row_fits (places_of p) n (matrix_in places n a.now) (matrix_in places n r.old) node.0 }
    ensures r_after { r.new ≡ matrix_words n (stepped (places_of p) n (matrix_in places n a.now) (matrix_in places n r.old) node.0) }
{
    let i = node.0;
    let mut row = [0u32; 64];
    new_row(p, n, a, r, i, &mut row);
    if row_low(n, &row) {
        let count = n * WEIGHT_WORDS;
        let at = i * count;
        let end = at + count;
        write_row(&row, &mut r[at..end]);
        return true;
    }
    false
}
