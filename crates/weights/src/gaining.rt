// Whether a join can gain anything, seen from its first value alone.
// That sums don't wrap stays a clause: `loses` is public, and a type with it would ask more of a caller.
ghost use Rattle.std.specs.Prelude.{◌≡◌};
ghost use Rattle.weights.specs.Languages.{places_of};
ghost use Rattle.weights.specs.Values.{weight_of, AtMost};
ghost use Rattle.weights.specs.Gains.{loses};

use super::{Places, Weight, comparing, joining};

// The first value of x joined y is worse than that of w: w stays, and the join need not be made.
pub fn loses(p: Places, w: Weight, x: Weight, y: Weight) -> bool
    requires { AtMost 2147483647 (weight_of x) × AtMost 2147483647 (weight_of y) }
    ensures { result ≡ loses (places_of p) (weight_of w) (weight_of x) (weight_of y) }
{
    let Weight::Route { first: a, .. } = w else {
        return false;
    };
    let Weight::Route { first: b, .. } = x else {
        return false;
    };
    let Weight::Route { first: c, .. } = y else {
        return false;
    };
    comparing::better_value(p.first, a, joining::join_value(p.first, b, c))
}
