// What the reader finds before the two lists, in words: n, m, mode and the language.
ghost use Rattle.std.specs.Prelude.{◌≡◌, ◌++◌, ◌+◌, ◌≤◌, length, drop};
ghost use Rattle.std.proofs.lemmas.List.Edits.{sets};
ghost use Rattle.door.specs.Languages.{place_numbers};
ghost use Rattle.door.specs.Problems.{problem_words, problem_of};

use super::languages::{CLASS, DIST, GAIN, WIDTH};
use super::storing::put_pair;
use weights::{Component, Language};

// Writes the kind and the limit of one place from `at` on.
fn put_place(s: &mut [u32], at: usize, c: Component)
    requires { at + 2 ≤ length s.old }
    ensures { s.new ≡ sets s.old at (place_numbers c) }
{
    match c {
        Component::Dist => put_pair(s, at, DIST as u32, 0),
        Component::Width(limit) => put_pair(s, at, WIDTH as u32, limit as u32),
        Component::Class(limit) => put_pair(s, at, CLASS as u32, limit as u32),
        Component::Gain => put_pair(s, at, GAIN as u32, 0),
    }
}

// Writes a problem's twelve words; the words after them stay.
pub fn put_problem(s: &mut [u32], n: u32, m: u32, mode: u32, l: Language)
    requires { problem_words ≤ length s.old }
    ensures { s.new ≡ problem_of n m mode l ++ drop problem_words s.old }
{
    put_pair(s, 0, n, m);
    put_pair(s, 2, mode, l.count);
    put_place(s, 4, l.first);
    put_place(s, 6, l.second);
    put_place(s, 8, l.third);
    put_place(s, 10, l.fourth);
}
