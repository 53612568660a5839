// What the laws ask of one component, and the values that a witness holds at it.
ghost use Rattle.std.specs.Prelude.{◌≡◌};
ghost use Rattle.weights.specs.Weights.{unit_value};
ghost use Rattle.weights.specs.Laws.{non_trivial, lossy, is_gain, worst, worse_of_two, better_of_two};

use weights::Component;

// Any component but width 1 and class 0, which have a single value.
pub fn non_trivial(c: Component) -> bool
    ensures { result ≡ non_trivial c }
{
    match c {
        Component::Dist | Component::Gain => true,
        Component::Width(limit) => limit != 1,
        Component::Class(limit) => limit != 0,
    }
}

// A non-trivial width or class: what it joins it forgets.
pub fn lossy(c: Component) -> bool
    ensures { result ≡ lossy c }
{
    match c {
        Component::Dist | Component::Gain => false,
        Component::Width(_) | Component::Class(_) => non_trivial(c),
    }
}

// The one kind with values better than its unit.
pub fn is_gain(c: Component) -> bool
    ensures { result ≡ is_gain c }
{
    matches!(c, Component::Gain)
}

// The limit for width, else 0.
pub fn unit_value(c: Component) -> u32
    ensures { result ≡ unit_value c }
{
    match c {
        Component::Width(limit) => limit as u32,
        Component::Dist | Component::Class(_) | Component::Gain => 0,
    }
}

// 1 for width, the limit for class.
pub fn worst(c: Component) -> u32
    ensures { result ≡ worst c }
{
    match c {
        Component::Dist | Component::Gain => 0,
        Component::Width(_) => 1,
        Component::Class(limit) => limit as u32,
    }
}

// The words of two witnesses, each a table of its own in 01. Of two of its values the worse: of worst and unit, of 1 and 0 (dist), of 0 and 1 (gain).
pub fn worse_of_two(c: Component) -> u32
    ensures { result ≡ worse_of_two c }
{
    match c {
        Component::Dist => 1,
        Component::Width(_) | Component::Class(_) => worst(c),
        Component::Gain => 0,
    }
}

// Of the same two the better.
pub fn better_of_two(c: Component) -> u32
    ensures { result ≡ better_of_two c }
{
    match c {
        Component::Dist => 0,
        Component::Width(_) | Component::Class(_) => unit_value(c),
        Component::Gain => 1,
    }
}
