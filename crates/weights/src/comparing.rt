// Comparing: component by component, the first difference deciding; no route is worst. A language and two weights stay arguments: with a
// struct no clause is plainer (docs/DESIGN-PASS.md).
ghost use Rattle.std.specs.Prelude.{◌≡◌, cond, false};
ghost use Rattle.weights.specs.declared.Comparison.TheVariants.{Better, Worse};
ghost use Rattle.weights.specs.Weights.{none, better_value, better, better_of};
ghost use Rattle.weights.specs.Languages.{places_of};
ghost use Rattle.weights.specs.Values.{weight_of, is_route, compared, same};

use super::{Comparison, Component, Places, Weight};

fn verdict(better: bool) -> Comparison
    ensures { result ≡ cond better Better Worse }
{
    if better {
        Comparison::Better
    } else {
        Comparison::Worse
    }
}

pub fn better_value(c: Component, x: u32, y: u32) -> bool
    ensures { result ≡ better_value c x y }
{
    match c {
        Component::Dist => x < y,
        Component::Width(_) => y < x,
        Component::Class(_) => x < y,
        Component::Gain => y < x,
    }
}

// Two values that differ.
fn compare_value(c: Component, x: u32, y: u32) -> Comparison
    ensures { result ≡ cond (better_value c x y) Better Worse }
{
    verdict(better_value(c, x, y))
}

// The weight is a route.
fn is_route(w: Weight) -> bool
    ensures { result ≡ is_route (weight_of w) }
{
    matches!(w, Weight::Route { .. })
}

// No route against a weight.
fn none_against(p: Places, y: Weight) -> Comparison
    ensures { result ≡ compared (places_of p) none (weight_of y) }
{
    if is_route(y) {
        Comparison::Worse
    } else {
        Comparison::Equal
    }
}

// Better, equal or worse. Place by place: each component compares in its own way, which no derive can know.
pub fn compare(p: Places, x: Weight, y: Weight) -> Comparison
    ensures { result ≡ compared (places_of p) (weight_of x) (weight_of y) }
{
    let Weight::Route {
        first: a,
        second: b,
        third: c,
        fourth: d,
    } = x
    else {
        return none_against(p, y);
    };
    let Weight::Route {
        first: e,
        second: f,
        third: g,
        fourth: h,
    } = y
    else {
        return Comparison::Better;
    };
    if a != e {
        return compare_value(p.first, a, e);
    }
    if b != f {
        return compare_value(p.second, b, f);
    }
    if c != g {
        return compare_value(p.third, c, g);
    }
    if d != h {
        return compare_value(p.fourth, d, h);
    }
    Comparison::Equal
}

// x is better than y.
pub fn better(p: Places, x: Weight, y: Weight) -> bool
    ensures { result ≡ better (places_of p) (weight_of x) (weight_of y) }
{
    compare(p, x, y) == Comparison::Better
}

// The better of two weights.
pub fn better_of(p: Places, x: Weight, y: Weight) -> Weight
    ensures { weight_of result ≡ better_of (places_of p) (weight_of x) (weight_of y) }
{
    if better(p, y, x) { y } else { x }
}

// Two weights are the same.
pub fn same(x: Weight, y: Weight) -> bool
    ensures { result ≡ same (weight_of x) (weight_of y) }
{
    x == y
}
