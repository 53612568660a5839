// Weights in buffers: reading, with malformed patterns told apart, and writing. The room stays a clause: the functions are public, and a
// type with it would ask more of a caller.
#![tactic(auto)]

ghost use Rattle.std.specs.Prelude.{◌≡◌, ◌∷◌, [], ◌+◌, ◌≤◌, length, take, drop};
ghost use Rattle.std.proofs.lemmas.List.Edits.{sets};
ghost use Rattle.weights.specs.Sizes.{places, weight_words, ones};
ghost use Rattle.weights.specs.Languages.{places_of};
ghost use Rattle.weights.specs.PerPlace.{list_of};
ghost use Rattle.weights.specs.Values.{weight_of};
ghost use Rattle.weights.specs.Words.{words, all_are, in_range, fits, reading, read_of, decoded};

use weights::{Component, ONES, PerPlace, Places, WEIGHT_WORDS, Weight};

pub fn in_range(c: Component, cap: u32, v: u32) -> bool
    ensures { result ≡ in_range cap c v }
{
    match c {
        Component::Dist | Component::Gain => v <= cap,
        Component::Width(w) => 1 <= v && v <= w as u32,
        Component::Class(k) => v <= k as u32,
    }
}

// Every word is ones.
pub fn all_ones(s: &[u32]) -> bool
    ensures { result ≡ all_are ones s.now }
{
    s.iter().all(|word| *word == ONES)
}

fn all_in_range(p: Places, cap: u32, w: PerPlace<u32>) -> bool
    ensures { result ≡ fits cap (places_of p) (list_of w) }
{
    in_range(p.first, cap, w.first)
        && in_range(p.second, cap, w.second)
        && in_range(p.third, cap, w.third)
        && in_range(p.fourth, cap, w.fourth)
}

fn read_words(p: Places, cap: u32, w: PerPlace<u32>) -> Option<Weight>
    ensures { read_of result ≡ reading cap (places_of p) (list_of w) }
{
    let PerPlace {
        first,
        second,
        third,
        fourth,
    } = w;
    if all_ones(&[first, second, third, fourth]) {
        Some(Weight::NoRoute)
    } else if all_in_range(p, cap, w) {
        Some(Weight::Route {
            first,
            second,
            third,
            fourth,
        })
    } else {
        None
    }
}

// The weight that the words from `at` on stand for, a sum being at most cap; none where they are malformed.
pub fn read_at(p: Places, cap: u32, s: &[u32], at: usize) -> Option<Weight>
    requires { at + weight_words ≤ length s.now }
    ensures { read_of result ≡ reading cap (places_of p) (take weight_words (drop at s.now)) }
{
    let w = PerPlace {
        first: s[at],
        second: s[at + 1],
        third: s[at + 2],
        fourth: s[at + 3],
    };
    read_words(p, cap, w)
}

// The weight at a place of a buffer that has passed its check.
pub fn weight_at(s: &[u32], at: usize) -> Weight
    requires { at + weight_words ≤ length s.now }
    ensures { weight_of result ≡ decoded places (take weight_words (drop at s.now)) }
{
    // All four before the test: a test of the slice loads them in turn, and takes 1.35 to 1.5 times as long where many are no route.
    let first = s[at];
    let second = s[at + 1];
    let third = s[at + 2];
    let fourth = s[at + 3];
    if all_ones(&[first, second, third, fourth]) {
        return Weight::NoRoute;
    }
    Weight::Route {
        first,
        second,
        third,
        fourth,
    }
}

// Writes the words of a weight from `at` on.
pub fn write_at(s: &mut [u32], at: usize, w: Weight)
    requires { at + weight_words ≤ length s.old }
    ensures { s.new ≡ sets s.old at (words (weight_of w)) }
{
    let Weight::Route {
        first,
        second,
        third,
        fourth,
    } = w
    else {
        s[at..at + WEIGHT_WORDS].fill(ONES);
        return;
    };
    // One by one: `copy_from_slice` takes 3.5 times as long.
    s[at] = first;
    s[at + 1] = second;
    s[at + 2] = third;
    s[at + 3] = fourth;
}
