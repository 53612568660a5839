// Joining: the weight of one thing after another.
// That sums don't wrap stays a clause: `join` and `join_value` are public, and a type with it would ask more of a caller.
ghost use Rattle.std.specs.Prelude.{◌≡◌, ◌≤◌};
ghost use Rattle.weights.specs.Weights.{join_value, join};
ghost use Rattle.weights.specs.Languages.{places_of};
ghost use Rattle.weights.specs.Values.{weight_of, AtMost};

use super::{Component, Places, Weight};

// Two values joined; they are small enough that a sum does not wrap.
pub fn join_value(c: Component, x: u32, y: u32) -> u32
    requires { (x ≤ 2147483647) × (y ≤ 2147483647) }
    ensures { result ≡ join_value c x y }
{
    match c {
        Component::Dist => x + y,
        Component::Width(_) => x.min(y),
        Component::Class(_) => x.max(y),
        Component::Gain => x + y,
    }
}

// Two weights joined. Each must show itself to be a route; otherwise the answer is no route at once.
pub fn join(p: Places, x: Weight, y: Weight) -> Weight
    requires { AtMost 2147483647 (weight_of x) × AtMost 2147483647 (weight_of y) }
    ensures { weight_of result ≡ join (places_of p) (weight_of x) (weight_of y) }
{
    let Weight::Route {
        first: a,
        second: b,
        third: c,
        fourth: d,
    } = x
    else {
        return Weight::NoRoute;
    };
    let Weight::Route {
        first: e,
        second: f,
        third: g,
        fourth: h,
    } = y
    else {
        return Weight::NoRoute;
    };
    Weight::Route {
        first: join_value(p.first, a, e),
        second: join_value(p.second, b, f),
        third: join_value(p.third, c, g),
        fourth: join_value(p.fourth, d, h),
    }
}
