// Is every entry of a matrix the best weight? Column by column, word by word, out at the first difference.
// `GivenArcs`, `Square` and p, n, a stay clauses and arguments: `all_best` is public, and with a struct no clause is plainer (docs/DESIGN-PASS.md).
ghost use Rattle.std.specs.Prelude.{◌≡◌, ◌+◌, ◌*◌, ◌≤◌, ◌<◌, length};
ghost use Rattle.algebra.specs.Best.{best};
ghost use Rattle.weights.specs.Sizes.{places, weight_words};
ghost use Rattle.weights.specs.Weights.{language};
ghost use Rattle.weights.specs.Languages.{places_of};
ghost use Rattle.weights.specs.Values.{same_values};
ghost use Rattle.matrices.specs.Buffers.{matrix_words, words_at, matrix_in, Square};
ghost use Rattle.matrices.specs.Steps.{every, GivenArcs};
ghost use Rattle.holding.specs.Holding.{held_at, column_has};

use weights::{Places, WEIGHT_WORDS};

// The four words at one place and at another are the same.
fn same_words(s: &[u32], at: usize, entries: &[u32], from: usize) -> bool
    requires { (at + weight_words ≤ length s.now) × (from + weight_words ≤ length entries.now) }
    ensures { result ≡ same_values (words_at s.now at) (words_at entries.now from) }
{
    // Word by word: with slices compared a handover takes 1.03 times as long.
    s[at] == entries[from]
        && s[at + 1] == entries[from + 1]
        && s[at + 2] == entries[from + 2]
        && s[at + 3] == entries[from + 3]
}

// Column j of the matrix holds the words of `entries`, one for each row.
fn column_same(n: usize, entries: &[u32], s: &[u32], j: usize) -> bool
    requires { Square n s.now × (j < n) × (n * weight_words ≤ length entries.now) }
    ensures { result ≡ every n (held_at n s.now entries.now j) }
{
    (0..n).all(|i| {
        let at = i * (n * WEIGHT_WORDS) + j * WEIGHT_WORDS;
        same_words(s, at, entries, i * WEIGHT_WORDS)
    })
}

// Column j of the matrix holds the words of the best weights.
fn column_best(p: Places, n: usize, a: &[u32], s: &[u32], j: usize) -> bool
    requires { GivenArcs (places_of p) n a.now × Square n s.now × (j < n) }
    ensures { result ≡ column_has n s.now (best (language (places_of p)) n (matrix_in places n a.now)) j }
{
    let mut entries = [0u32; 64];
    columns::settling::settle_column(p, n, a, j, &mut entries);
    column_same(n, &entries, s, j)
}

// The matrix is that of the best weights, word for word.
pub fn all_best(p: Places, n: usize, a: &[u32], s: &[u32]) -> bool
    requires { GivenArcs (places_of p) n a.now × Square n s.now }
    ensures { result ≡ same_values s.now (matrix_words n (best (language (places_of p)) n (matrix_in places n a.now))) }
{
    (0..n).all(|j| column_best(p, n, a, s, j))
}
