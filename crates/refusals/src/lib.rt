// 01's refusals: a case for each of its thirteen numbers, each with which and place. A check passes or refuses: it is a
// `Result<(), Refusal>`, and the first refusal of several is the answer.
#![tactic(auto)]

ghost use Rattle.std.specs.Prelude.{◌≡◌};
ghost use Rattle.refusals.specs.Told.{told};

#[derive(Clone, Copy, Debug, PartialEq, Eq)]
pub enum Refusal {
    Bytes { which: u32, place: u32 },
    Version { which: u32, place: u32 },
    Size { which: u32, place: u32 },
    BadComponent { which: u32, place: u32 },
    BadCount { which: u32, place: u32 },
    Value { which: u32, place: u32 },
    NoSuch { which: u32, place: u32 },
    NotAscending { which: u32, place: u32 },
    Length { which: u32, place: u32 },
    Law { which: u32, place: u32 },
    Sum { which: u32, place: u32 },
    Equation { which: u32, place: u32 },
    TooMany { which: u32, place: u32 },
}

// A refusal as 01 tells it; 0 0 0 is done. Three numbers, as the C interface gives them.
#[derive(Clone, Copy, Debug, PartialEq, Eq)]
pub struct Told {
    pub number: u32,
    pub which: u32,
    pub place: u32,
}

impl Told {
    pub const DONE: Told = Told {
        number: 0,
        which: 0,
        place: 0,
    };
}

// The number, which and place of a refusal.
impl From<Refusal> for Told {
    ghost from_gives = { λ r t. t ≡ told r };

    fn from(r: Refusal) -> Told {
        let (number, which, place) = match r {
            Refusal::Bytes { which, place } => (1, which, place),
            Refusal::Version { which, place } => (2, which, place),
            Refusal::Size { which, place } => (3, which, place),
            Refusal::BadComponent { which, place } => (4, which, place),
            Refusal::BadCount { which, place } => (5, which, place),
            Refusal::Value { which, place } => (6, which, place),
            Refusal::NoSuch { which, place } => (7, which, place),
            Refusal::NotAscending { which, place } => (8, which, place),
            Refusal::Length { which, place } => (9, which, place),
            Refusal::Law { which, place } => (10, which, place),
            Refusal::Sum { which, place } => (11, which, place),
            Refusal::Equation { which, place } => (12, which, place),
            Refusal::TooMany { which, place } => (13, which, place),
        };
        Told {
            number,
            which,
            place,
        }
    }
}

// The row of a call that gives no number: done, or its refusal's.
impl From<Result<(), Refusal>> for Told {
    ghost use Rattle.refusals.specs.Checks.{answer_told};

    ghost from_gives = { λ answer t. t ≡ answer_told answer };

    fn from(answer: Result<(), Refusal>) -> Told {
        match answer {
            Ok(()) => Told::DONE,
            Err(r) => Told::from(r),
        }
    }
}
