// The fresh matrix: units on the diagonal, no route elsewhere.
// `Square` and the bounds stay clauses: `fresh` and `fresh_row` are public, and a type with them would ask more of a caller.
ghost use Rattle.std.specs.Prelude.{◌≡◌, ◌++◌, ◌*◌, ◌≤◌, length, drop};
ghost use Rattle.algebra.specs.Step.{fresh};
ghost use Rattle.weights.specs.Sizes.{weight_words};
ghost use Rattle.weights.specs.Weights.{unit, language};
ghost use Rattle.weights.specs.Languages.{places_of};
ghost use Rattle.weights.specs.Values.{weight_of};
ghost use Rattle.matrices.specs.Buffers.{row_words, matrix_words, Square};

use weights::{ONES, Places, WEIGHT_WORDS, Weight};

fn unit_weight(p: Places) -> Weight
    ensures { weight_of result ≡ unit (places_of p) }
{
    let u = laws::units(p);
    Weight::Route {
        first: u.first,
        second: u.second,
        third: u.third,
        fourth: u.fourth,
    }
}

// Entry (i, j) of the fresh matrix.
pub fn fresh_weight(p: Places, i: usize, j: usize) -> Weight
    ensures { weight_of result ≡ fresh (language (places_of p)) i j }
{
    if i == j {
        unit_weight(p)
    } else {
        Weight::NoRoute
    }
}

// Writes the fresh row i over the first n entries: no route in all of them, then the unit, where the row has one.
pub fn fresh_row(p: Places, n: usize, i: usize, row: &mut [u32])
    requires { (n ≤ 16) × (n * weight_words ≤ length row.old) }
    ensures { row.new ≡ row_words n (fresh (language (places_of p)) i) ++ drop (n * weight_words) row.old }
{
    row[..n * WEIGHT_WORDS].fill(ONES);
    if i < n {
        words::write_at(row, i * WEIGHT_WORDS, fresh_weight(p, i, i));
    }
}

// Writes the fresh matrix.
pub fn fresh(p: Places, n: usize, r: &mut [u32])
    requires { Square n r.old }
    ensures { r.new ≡ matrix_words n (fresh (language (places_of p))) }
{
    for i in 0..n {
        let at = i * (n * WEIGHT_WORDS);
        fresh_row(p, n, i, &mut r[at..]);
    }
}
