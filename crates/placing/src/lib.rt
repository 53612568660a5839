// A language's checks (refusals 5 and 4), and its places with class 0 in the unused ones.
#![tactic(auto)]

ghost use Rattle.std.specs.Prelude.{◌≡◌, cond, ltb};
ghost use Rattle.weights.specs.declared.Component.TheVariants.{Class};
ghost use Rattle.weights.specs.Sizes.{places};
ghost use Rattle.weights.specs.Languages.{sound_limit, limits_from, SmallLimit, SmallLimits, padded, components_of, places_of, CheckSays};
ghost use Rattle.refusals.specs.declared.Refusal.TheVariants.{BadComponent};
ghost use Rattle.refusals.specs.Checks.{unless};

use refusals::Refusal;
use weights::{Component, Language, PLACES, Places};

fn place(count: u32, i: u32, c: Component) -> Component
    ensures { result ≡ cond (ltb i count) c (Class 0) }
{
    if i < count { c } else { Component::Class(0) }
}

// The language's components, and class 0 in each place after them.
pub fn placed(l: Language) -> Places
    ensures { places_of result ≡ padded places (components_of l) }
{
    Places {
        first: place(l.count, 0, l.first),
        second: place(l.count, 1, l.second),
        third: place(l.count, 2, l.third),
        fourth: place(l.count, 3, l.fourth),
    }
}

// 4: the limit of a width is not 0.
fn check_limit(c: Component, place: u32) -> Result<(), Refusal>
    ensures check { result ≡ unless (sound_limit c) (BadComponent 0 place) }
    ensures small_limit { SmallLimit 65535 c }
{
    match c {
        Component::Width(0) => Err(Refusal::BadComponent { which: 0, place }),
        _ => Ok(()),
    }
}

// 4: the first width limit 0 in the places.
fn check_limits(p: Places) -> Result<(), Refusal>
    ensures check { result ≡ limits_from 0 (places_of p) }
    ensures small_limits { SmallLimits 65535 (places_of p) }
{
    check_limit(p.first, 0)?;
    check_limit(p.second, 1)?;
    check_limit(p.third, 2)?;
    check_limit(p.fourth, 3)
}

// What the check of a language finds: its places, or refusal 5, then 4.
#[tactic(auto, using(weights::proofs::Checking::places_check))]
pub fn check(l: Language) -> Result<Places, Refusal>
    ensures { CheckSays l result }
{
    if l.count < 1 || PLACES < l.count {
        return Err(Refusal::BadCount { which: 0, place: 0 });
    }
    let p = placed(l);
    check_limits(p)?;
    Ok(p)
}
