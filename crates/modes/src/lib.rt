// The three modes of forwarding: what an entry of a table is, how a mode compares two, and how a weight is applied to one.
#![tactic(auto)]

pub mod applying;
pub mod choosing;
pub mod comparing;
pub mod gaining;

ghost use Rattle.std.specs.Prelude.{◌≡◌};
ghost use Rattle.weights.specs.Values.{weight_of};
ghost use Rattle.modes.specs.Entries.{entry_of};
ghost use Rattle.modes.specs.Gains.{weight_in};

use weights::Weight;

// The largest t of a mode other than plain.
pub const LARGEST_T: u32 = 65535;

#[derive(Clone, Copy, Debug, PartialEq, Eq)]
pub enum Mode {
    Plain,
    Hot,
    Cold,
}

// A table's entry: a route, with a value in each place, and an outside number t; or empty. An Option of the former would name
// two types where each match here names one.
#[derive(Clone, Copy, Debug, PartialEq, Eq)]
pub enum Entry {
    Mapped {
        first: u32,
        second: u32,
        third: u32,
        fourth: u32,
        t: u32,
    },
    Empty,
}

impl Entry {
    // The weight in an entry; in empty there is no route.
    pub fn weight(self) -> Weight
        ensures { weight_of result ≡ weight_in (entry_of self) }
    {
        match self {
            Entry::Mapped {
                first,
                second,
                third,
                fourth,
                ..
            } => Weight::Route {
                first,
                second,
                third,
                fourth,
            },
            Entry::Empty => Weight::NoRoute,
        }
    }
}
