// How a witness is found: a flag for each place, and words laid over others at the first flag.
ghost use Rattle.std.specs.Prelude.{◌≡◌};
ghost use Rattle.weights.specs.PerPlace.{list_of};
ghost use Rattle.laws.specs.Flags.{some_flag, over_at, before_flag, after_flag};

use weights::PerPlace;

pub fn some_flag(f: PerPlace<bool>) -> bool
    ensures { result ≡ some_flag (list_of f) }
{
    f.first || f.second || f.third || f.fourth
}

// The flags of l that have a later flag in f.
pub fn before_flag(l: PerPlace<bool>, f: PerPlace<bool>) -> PerPlace<bool>
    ensures { list_of result ≡ before_flag (list_of l) (list_of f) }
{
    PerPlace {
        first: l.first && (f.second || f.third || f.fourth),
        second: l.second && (f.third || f.fourth),
        third: l.third && f.fourth,
        fourth: false,
    }
}

// The flags of f after the first of b.
pub fn after_flag(b: PerPlace<bool>, f: PerPlace<bool>) -> PerPlace<bool>
    ensures { list_of result ≡ after_flag (list_of b) (list_of f) }
{
    PerPlace {
        first: false,
        second: b.first && f.second,
        third: (b.first || b.second) && f.third,
        fourth: (b.first || b.second || b.third) && f.fourth,
    }
}

// u, but v at the first flag.
pub fn over_at(f: PerPlace<bool>, v: PerPlace<u32>, u: PerPlace<u32>) -> PerPlace<u32>
    ensures { list_of result ≡ over_at (list_of f) (list_of v) (list_of u) }
{
    if f.first {
        PerPlace {
            first: v.first,
            ..u
        }
    } else if f.second {
        PerPlace {
            second: v.second,
            ..u
        }
    } else if f.third {
        PerPlace {
            third: v.third,
            ..u
        }
    } else if f.fourth {
        PerPlace {
            fourth: v.fourth,
            ..u
        }
    } else {
        u
    }
}
