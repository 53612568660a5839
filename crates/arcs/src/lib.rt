// One arc taken into a whole row. In a language of one component only the first values are joined; in others a join that loses by
// its first value is not finished.
// `Given`, the bounds and p, n, a, r stay clauses and arguments: `take_arc` is public, and with a struct no clause is plainer
// (docs/DESIGN-PASS.md). `single` is worked out once a row: a fact about the language, not a value's state.
#![tactic(auto)]

ghost use Rattle.std.specs.Prelude.{◌≡◌, true, ◌++◌, ℕ, ◌+◌, ◌*◌, ◌≤◌, ◌<◌, length, take, drop};
ghost use Rattle.weights.specs.declared.Component.TheVariants.{Class};
ghost use Rattle.weights.specs.Sizes.{places, weight_words, arc_sum, matrix_sum};
ghost use Rattle.weights.specs.Weights.{join, better_of};
ghost use Rattle.weights.specs.Languages.{places_of};
ghost use Rattle.weights.specs.Values.{weight_of, AtMost};
ghost use Rattle.weights.specs.Gains.{loses};
ghost use Rattle.weights.specs.Words.{words};
ghost use Rattle.matrices.specs.Buffers.{row_words, cell, row_in, matrix_in, Square};
ghost use Rattle.matrices.specs.Steps.{Given};
ghost use Rattle.matrices.specs.Parts.{folded, FirstAlone, Single};

use weights::{Component, ONES, Places, WEIGHT_WORDS, Weight};

fn is_unused(c: Component) -> bool
    ensures { result ≡ true → c ≡ Class 0 }
{
    matches!(c, Component::Class(0))
}

// Every place after the first is unused, or may as well be: its component is class 0.
pub fn is_single(p: Places) -> bool
    ensures { result ≡ true → Single p }
{
    is_unused(p.second) && is_unused(p.third) && is_unused(p.fourth)
}

// x joined y in a language of one component.
fn join_first(p: Places, x: Weight, y: Weight) -> Weight
    requires { AtMost arc_sum (weight_of x) × AtMost matrix_sum (weight_of y) × FirstAlone (places_of p) (weight_of x) (weight_of y) }
    ensures { weight_of result ≡ join (places_of p) (weight_of x) (weight_of y) }
{
    let Weight::Route { first: a, .. } = x else {
        return Weight::NoRoute;
    };
    let Weight::Route { first: e, .. } = y else {
        return Weight::NoRoute;
    };
    Weight::Route {
        first: weights::joining::join_value(p.first, a, e),
        second: 0,
        third: 0,
        fourth: 0,
    }
}

// x joined y, the short way where the language is single.
fn join_arc(p: Places, single: bool, x: Weight, y: Weight) -> Weight
    requires { AtMost arc_sum (weight_of x) × AtMost matrix_sum (weight_of y) × (single ≡ true → FirstAlone (places_of p) (weight_of x) (weight_of y)) }
    ensures { weight_of result ≡ join (places_of p) (weight_of x) (weight_of y) }
{
    if single {
        join_first(p, x, y)
    } else {
        weights::joining::join(p, x, y)
    }
}

// x joined y is worse than w by its first value; where the language is single that is no shorter than the join, and not asked.
fn is_lost(p: Places, single: bool, w: Weight, x: Weight, y: Weight) -> bool
    requires { AtMost arc_sum (weight_of x) × AtMost matrix_sum (weight_of y) }
    ensures { result ≡ true → loses (places_of p) (weight_of w) (weight_of x) (weight_of y) ≡ true }
{
    !single && weights::gaining::loses(p, w, x, y)
}

// The weight at `at` becomes the better of itself and x joined y.
fn relax_at(p: Places, single: bool, x: Weight, y: Weight, row: &mut [u32], at: usize)
    requires { (at + weight_words ≤ length row.old) × AtMost arc_sum (weight_of x) × AtMost matrix_sum (weight_of y) × (single ≡ true → FirstAlone (places_of p) (weight_of x) (weight_of y)) }
    ensures { row.new ≡ take at row.old ++ (words (better_of (places_of p) (cell places row.old at) (join (places_of p) (weight_of x) (weight_of y))) ++ drop weight_words (drop at row.old)) }
{
    let old = words::weight_at(row, at);
    if is_lost(p, single, old, x, y) {
        return;
    }
    let z = join_arc(p, single, x, y);
    if weights::comparing::better(p, z, old) {
        words::write_at(row, at, z);
    }
}

// Each entry j of the row becomes the better of itself and x joined R(k,j).
#[tactic(auto, unfolding(matrices::specs::Buffers::cell))]
fn fold_arc(p: Places, single: bool, x: Weight, r: &[u32], n: usize, k: usize, row: &mut [u32])
    requires square { Square n r.now × (k < n) × (n * weight_words ≤ length row.old) × AtMost arc_sum (weight_of x) }
    requires by_index { (j : ℕ) → j < n → AtMost matrix_sum (matrix_in places n r.now k j) }
    requires first_alone { single ≡ true → (j : ℕ) → j < n → FirstAlone (places_of p) (weight_of x) (matrix_in places n r.now k j) }
    ensures { row.new ≡ row_words n (folded (places_of p) (weight_of x) (matrix_in places n r.now k) (row_in places row.old)) ++ drop (n * weight_words) row.old }
{
    let from = k * (n * WEIGHT_WORDS);
    for j in 0..n {
        let y = words::weight_at(r, from + j * WEIGHT_WORDS);
        relax_at(p, single, x, y, row, j * WEIGHT_WORDS);
    }
}

// The arc from i to k, joined row k of R, taken into the row; an arc that is no route is left out before R is read.
#[tactic(auto, unfolding(matrices::specs::Buffers::cell))]
pub fn take_arc(
    p: Places,
    single: bool,
    n: usize,
    a: &[u32],
    r: &[u32],
    i: usize,
    k: usize,
    row: &mut [u32],
)
    requires { Given (places_of p) n a.now r.now × (i < n) × (k < n) × (n * weight_words ≤ length row.old) × (single ≡ true → Single p) }
    ensures { row.new ≡ row_words n (folded (places_of p) (matrix_in places n a.now i k) (matrix_in places n r.now k) (row_in places row.old)) ++ drop (n * weight_words) row.old }
{
    let at = i * (n * WEIGHT_WORDS) + k * WEIGHT_WORDS;
    if a[at] == ONES {
        return;
    }
    let x = words::weight_at(a, at);
    fold_arc(p, single, x, r, n, k, row);
}
