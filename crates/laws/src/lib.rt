// The law report: which of the laws D, U, C a language has, and weights that break a missing one.
#![tactic(auto)]

mod components;
mod flags;

ghost use Rattle.std.specs.Prelude.{◌≡◌, []};
ghost use Rattle.weights.specs.Weights.{unit_values};
ghost use Rattle.weights.specs.Laws.{test_d, test_u, test_c, s_d, x_d, y_d, x_u, s_c};
ghost use Rattle.weights.specs.Languages.{places_of};
ghost use Rattle.weights.specs.PerPlace.{list_of};
ghost use Rattle.laws.specs.Report.{law_of, law_row, report, answer_row};

use components::{better_of_two, is_gain, lossy, non_trivial, unit_value, worse_of_two, worst};
use flags::{after_flag, before_flag, over_at, some_flag};
use refusals::Refusal;
use weights::{Language, PerPlace, Places};

// Weights that break a law: a value for each place of s, x and y.
#[derive(Clone, Copy, Debug, Default, PartialEq, Eq)]
pub struct Witness {
    pub s: PerPlace<u32>,
    pub x: PerPlace<u32>,
    pub y: PerPlace<u32>,
}

// A law of a language is held, or broken by s, x and y. An Option would not say which of the two is held.
#[derive(Clone, Copy, Debug, PartialEq, Eq)]
pub enum Law {
    Held,
    BrokenBy(Witness),
}

// The laws D, U and C of a language.
#[derive(Clone, Copy, Debug, PartialEq, Eq)]
pub struct LawReport {
    pub d: Law,
    pub u: Law,
    pub c: Law,
}

impl Law {
    pub fn is_held(self) -> bool
        ensures { result ≡ (law_of self).held }
    {
        matches!(self, Law::Held)
    }

    // The weights that break the law, all zeros where it is held.
    pub fn witness(self) -> Witness
        ensures s { list_of result.s ≡ (law_of self).s }
        ensures x { list_of result.x ≡ (law_of self).x }
        ensures y { list_of result.y ≡ (law_of self).y }
    {
        match self {
            Law::Held => Witness::default(),
            Law::BrokenBy(witness) => witness,
        }
    }
}

// The unit of each place.
pub fn units(p: Places) -> PerPlace<u32>
    ensures { list_of result ≡ unit_values (places_of p) }
{
    p.map(unit_value)
}

// Law D holds: no width or class that forgets has a later component that is not trivial.
pub fn has_d(p: Places) -> bool
    ensures { result ≡ test_d (places_of p) }
{
    !some_flag(before_flag(p.map(lossy), p.map(non_trivial)))
}

// Law U holds: no component is a gain.
pub fn has_u(p: Places) -> bool
    ensures { result ≡ test_u (places_of p) }
{
    !some_flag(p.map(is_gain))
}

// Law C holds: no width or class forgets what it joins.
pub fn has_c(p: Places) -> bool
    ensures { result ≡ test_c (places_of p) }
{
    !some_flag(p.map(lossy))
}

// Law D, held or broken.
fn law_d(p: Places) -> Law
    ensures { law_of result ≡ law_row (test_d (places_of p)) (s_d (places_of p)) (x_d (places_of p)) (y_d (places_of p)) }
{
    // Not by `has_d`: the places that break the law are wanted besides.
    let varying = p.map(non_trivial);
    let breaking = before_flag(p.map(lossy), varying);
    if !some_flag(breaking) {
        return Law::Held;
    }
    let later = after_flag(breaking, varying);
    let u = units(p);
    let s = over_at(breaking, p.map(worst), u);
    let x = over_at(later, p.map(worse_of_two), u);
    let y = over_at(later, p.map(better_of_two), s);
    Law::BrokenBy(Witness { s, x, y })
}

// Law U, held or broken. Its s and y are zeros.
fn law_u(p: Places) -> Law
    ensures { law_of result ≡ law_row (test_u (places_of p)) [] (x_u (places_of p)) [] }
{
    let gains = p.map(is_gain);
    if !some_flag(gains) {
        return Law::Held;
    }
    let x = over_at(gains, p.map(|_| 1), units(p));
    Law::BrokenBy(Witness {
        x,
        ..Witness::default()
    })
}

// Law C, held or broken.
fn law_c(p: Places) -> Law
    ensures { law_of result ≡ law_row (test_c (places_of p)) (s_c (places_of p)) (unit_values (places_of p)) (s_c (places_of p)) }
{
    let forgetful = p.map(lossy);
    if !some_flag(forgetful) {
        return Law::Held;
    }
    let x = units(p);
    let s = over_at(forgetful, p.map(worst), x);
    Law::BrokenBy(Witness { s, x, y: s })
}

// The law report of a language; it refuses 5, then 4.
pub fn laws(l: Language) -> Result<LawReport, Refusal>
    ensures { answer_row result ≡ report l }
{
    let p = placing::check(l)?;
    Ok(LawReport {
        d: law_d(p),
        u: law_u(p),
        c: law_c(p),
    })
}
