// A weight applied to an entry: join the weight, keep t.
// That sums don't wrap stays a clause: `apply` is public, and a type with it would ask more of a caller.
ghost use Rattle.std.specs.Prelude.{◌≡◌};
ghost use Rattle.weights.specs.Languages.{places_of};
ghost use Rattle.weights.specs.Values.{weight_of, AtMost};
ghost use Rattle.modes.specs.Entries.{entry_of, with_t, applied};
ghost use Rattle.modes.specs.Gains.{weight_in};

use super::Entry;
use weights::{Places, Weight};

// The entry of a weight and t; no route gives empty.
pub fn with_t(w: Weight, t: u32) -> Entry
    ensures { entry_of result ≡ with_t (weight_of w) t }
{
    let Weight::Route {
        first,
        second,
        third,
        fourth,
    } = w
    else {
        return Entry::Empty;
    };
    Entry::Mapped {
        first,
        second,
        third,
        fourth,
        t,
    }
}

// A weight applied to an entry; no route or empty gives empty.
pub fn apply(p: Places, w: Weight, e: Entry) -> Entry
    requires { AtMost 2147483647 (weight_of w) × AtMost 2147483647 (weight_in (entry_of e)) }
    ensures { entry_of result ≡ applied (places_of p) (weight_of w) (entry_of e) }
{
    let Entry::Mapped { t, .. } = e else {
        return Entry::Empty;
    };
    with_t(weights::joining::join(p, w, e.weight()), t)
}
