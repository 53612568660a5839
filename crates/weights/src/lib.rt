// Components, languages and weights, as calls are given them.
#![tactic(auto)]

pub mod comparing;
pub mod gaining;
pub mod joining;

// The places of a language, and the words of a weight and of a table's entry.
pub const PLACES: u32 = 4;

pub const WEIGHT_WORDS: usize = 4;

pub const ENTRY_WORDS: usize = 5;

pub const PRODUCT_TAGS: usize = 3;

// The word of which no route is made.
pub const ONES: u32 = 4294967295;

// The largest sums of an arc and of a matrix.
pub const ARC_SUM: u32 = 65535;

pub const MATRIX_SUM: u32 = 983025;

// A component is one of four kinds, two of which carry a limit.
#[derive(Clone, Copy, Debug, PartialEq, Eq)]
pub enum Component {
    Dist,
    Width(u16),
    Class(u16),
    Gain,
}

// A language: `count` components; the places after them are ignored. Not a count and `Places`, which are padded: here the later places may
// hold anything, and no clause is to take the one for the other.
#[derive(Clone, Copy, Debug, PartialEq, Eq)]
pub struct Language {
    pub count: u32,
    pub first: Component,
    pub second: Component,
    pub third: Component,
    pub fourth: Component,
}

impl Language {
    // A language of no components, each place dist.
    pub const NONE: Language = Language {
        count: 0,
        first: Component::Dist,
        second: Component::Dist,
        third: Component::Dist,
        fourth: Component::Dist,
    };
}

// One thing for each place of a language.
#[derive(Clone, Copy, Debug, Default, PartialEq, Eq)]
pub struct PerPlace<T> {
    pub first: T,
    pub second: T,
    pub third: T,
    pub fourth: T,
}

// A language in four places, an unused one holding class 0, whose single value is the unused word 0.
pub type Places = PerPlace<Component>;

impl Places {
    // What f makes of the component in each place.
    pub fn map<T, F: Fn(Component) -> T>(self, f: F) -> PerPlace<T>
        requires { F.IsAlwaysCallable f }
        ensures { F.post f self.first result.first × F.post f self.second result.second × F.post f self.third result.third × F.post f self.fourth result.fourth }
    {
        PerPlace {
            first: f(self.first),
            second: f(self.second),
            third: f(self.third),
            fourth: f(self.fourth),
        }
    }
}

// A route has a value in each place. An enum of its own, of plain numbers: a weight shows itself to be a route, as 01 wants it.
#[derive(Clone, Copy, Debug, PartialEq, Eq)]
pub enum Weight {
    Route {
        first: u32,
        second: u32,
        third: u32,
        fourth: u32,
    },
    NoRoute,
}

// Not an Ordering, which is no plainer: `Better` would be its `Less`, also where the greater value is better.
#[derive(Clone, Copy, Debug, PartialEq, Eq)]
pub enum Comparison {
    Better,
    Equal,
    Worse,
}
