// The routing equation, row by row, with a way out at the first row that differs.
// `Given`, the bounds and p, n, a, r stay clauses and arguments: `solves` is public, and with a struct no clause is plainer (docs/DESIGN-PASS.md).
ghost use Rattle.std.specs.Prelude.{◌≡◌, ◌*◌, ◌≤◌, ◌<◌, length};
ghost use Rattle.weights.specs.Sizes.{places, weight_words};
ghost use Rattle.weights.specs.Languages.{places_of};
ghost use Rattle.matrices.specs.Buffers.{row_in, matrix_in, Square};
ghost use Rattle.matrices.specs.Steps.{every, row_solves, solves, Given};
ghost use Rattle.matrices.specs.Parts.{same_at};

use super::stepping;
use weights::{Places, WEIGHT_WORDS};

// Entry by entry, the row is row i of the matrix.
fn row_same(n: usize, row: &[u32], r: &[u32], i: usize) -> bool
    requires { Square n r.now × (i < n) × (n * weight_words ≤ length row.now) }
    ensures { result ≡ every n (same_at (row_in places row.now) (matrix_in places n r.now i)) }
{
    let from = i * (n * WEIGHT_WORDS);
    (0..n).all(|j| {
        let x = words::weight_at(row, j * WEIGHT_WORDS);
        let y = words::weight_at(r, from + j * WEIGHT_WORDS);
        weights::comparing::same(x, y)
    })
}

// Row i satisfies the routing equation.
fn row_solves(p: Places, n: usize, a: &[u32], r: &[u32], i: usize) -> bool
    requires { Given (places_of p) n a.now r.now × (i < n) }
    ensures { result ≡ row_solves (places_of p) n (matrix_in places n a.now) (matrix_in places n r.now) i }
{
    let mut row = [0u32; 64];
    stepping::new_row(p, n, a, r, i, &mut row);
    row_same(n, &row, r, i)
}

// R = (A join R) best fresh.
pub fn solves(p: Places, n: usize, a: &[u32], r: &[u32]) -> bool
    requires { Given (places_of p) n a.now r.now }
    ensures { result ≡ solves (places_of p) n (matrix_in places n a.now) (matrix_in places n r.now) }
{
    (0..n).all(|i| row_solves(p, n, a, r, i))
}
