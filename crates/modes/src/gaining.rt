// Whether an entry that is applied can gain anything, seen before the join is made.
// That sums don't wrap stays a clause: `loses` is public, and a type with it would ask more of a caller.
ghost use Rattle.std.specs.Prelude.{◌≡◌};
ghost use Rattle.weights.specs.Languages.{places_of};
ghost use Rattle.weights.specs.Values.{weight_of, AtMost};
ghost use Rattle.weights.specs.Gains.{loses};
ghost use Rattle.modes.specs.Entries.{entry_of};
ghost use Rattle.modes.specs.Gains.{weight_in, sooner, loses_entry};

use super::{Entry, Mode};
use weights::{Places, Weight};

// Both are mapped, e with the smaller t.
fn is_sooner(e: Entry, f: Entry) -> bool
    ensures { result ≡ sooner (entry_of e) (entry_of f) }
{
    let Entry::Mapped { t, .. } = e else {
        return false;
    };
    let Entry::Mapped { t: u, .. } = f else {
        return false;
    };
    t < u
}

// The first value of x joined the weight in f is worse than that in e.
fn loses_first(p: Places, e: Entry, x: Weight, f: Entry) -> bool
    requires { AtMost 2147483647 (weight_of x) × AtMost 2147483647 (weight_in (entry_of f)) }
    ensures { result ≡ loses (places_of p) (weight_in (entry_of e)) (weight_of x) (weight_in (entry_of f)) }
{
    weights::gaining::loses(p, e.weight(), x, f.weight())
}

// e stays beside x applied to f, whatever is left of the join: by the first value, in cold mode by the smaller t.
pub fn loses(p: Places, mode: Mode, e: Entry, x: Weight, f: Entry) -> bool
    requires { AtMost 2147483647 (weight_of x) × AtMost 2147483647 (weight_in (entry_of f)) }
    ensures { result ≡ loses_entry mode (places_of p) (entry_of e) (weight_of x) (entry_of f) }
{
    match mode {
        Mode::Plain | Mode::Hot => loses_first(p, e, x, f),
        Mode::Cold => is_sooner(e, f),
    }
}
