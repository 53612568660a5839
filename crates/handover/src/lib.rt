// At a handover: the row that the forwarder gets, lent from the new matrix or from the standing one. The calls take every input.
#![tactic(auto)]

pub mod checks;
pub mod lending;

// The matrix that lends the row.
#[derive(Clone, Copy, Debug, PartialEq, Eq)]
pub enum Lender {
    Newer,
    Standing,
}
