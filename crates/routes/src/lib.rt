// The calls fresh and equation, the checks in 01's order, and the types of which specs/ speaks; the step call stands in `steps`.
// They take every input.
#![tactic(auto)]

pub mod checks;
pub mod equation;
pub mod fresh;

ghost use Rattle.std.specs.Prelude.{◌≡◌};

use numbers::Node;
use refusals::Refusal;

pub const MOST_STEPS: usize = 4096;

pub const FIRST_SETTLE: u32 = 256;

// What a number of a step list means.
#[derive(Clone, Copy, Debug, PartialEq, Eq)]
pub enum Step {
    Row(Node),
    Settle(Node),
}

// A list of steps that was refused, after the steps that are done.
#[derive(Clone, Copy, Debug, PartialEq, Eq)]
pub struct Stopped {
    pub refusal: Refusal,
    pub done: u32,
}

// A call that refuses before the first step has none done.
impl From<Refusal> for Stopped {
    ghost from_gives = { λ x s. s ≡ record { refusal = x; done = 0 } };

    fn from(refusal: Refusal) -> Stopped {
        Stopped { refusal, done: 0 }
    }
}
