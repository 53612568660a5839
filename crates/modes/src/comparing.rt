// Comparing entries by mode: plain by weight, hot by weight then smaller t, cold by smaller t then weight; empty is worst. Written out: no
// derive knows the mode. A weight and its t stay arguments, as the definitions have them.
ghost use Rattle.std.specs.Prelude.{◌≡◌, ltb};
ghost use Rattle.algebra.specs.Order.{pick};
ghost use Rattle.weights.specs.Languages.{places_of};
ghost use Rattle.weights.specs.Values.{weight_of};
ghost use Rattle.modes.specs.Entries.{entry_of, by_weight_then_t, by_t_then_weight, comparing, better_entry, mode_of};

use super::{Entry, Mode};
use weights::{Comparison, Places, Weight};

// By weight, then the smaller t.
fn better_hot(p: Places, x: Weight, t: u32, y: Weight, u: u32) -> bool
    ensures { result ≡ by_weight_then_t ltb (places_of p) (weight_of x) t (weight_of y) u }
{
    match weights::comparing::compare(p, x, y) {
        Comparison::Better => true,
        Comparison::Equal => t < u,
        Comparison::Worse => false,
    }
}

// By the smaller t, then weight.
fn better_cold(p: Places, x: Weight, t: u32, y: Weight, u: u32) -> bool
    ensures { result ≡ by_t_then_weight ltb (places_of p) (weight_of x) t (weight_of y) u }
{
    if t != u {
        return t < u;
    }
    weights::comparing::better(p, x, y)
}

// A weight with its t is better than another with its own.
fn better_route(p: Places, mode: Mode, x: Weight, t: u32, y: Weight, u: u32) -> bool
    ensures { result ≡ comparing mode (places_of p) (weight_of x) t (weight_of y) u }
{
    match mode {
        Mode::Plain => weights::comparing::better(p, x, y),
        Mode::Hot => better_hot(p, x, t, y, u),
        Mode::Cold => better_cold(p, x, t, y, u),
    }
}

// e is better than f.
pub fn better(p: Places, mode: Mode, e: Entry, f: Entry) -> bool
    ensures { result ≡ better_entry (comparing mode (places_of p)) (entry_of e) (entry_of f) }
{
    let Entry::Mapped { t, .. } = e else {
        return false;
    };
    let Entry::Mapped { t: u, .. } = f else {
        return true;
    };
    better_route(p, mode, e.weight(), t, f.weight(), u)
}

// The better of two entries.
pub fn better_of(p: Places, mode: Mode, e: Entry, f: Entry) -> Entry
    ensures { entry_of result ≡ pick (mode_of mode (places_of p)).entries (entry_of e) (entry_of f) }
{
    if better(p, mode, f, e) { f } else { e }
}
