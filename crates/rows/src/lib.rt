// Rows of a matrix: the row step, and the routing equation row by row.
#![tactic(auto)]

pub mod equation;
pub mod stepping;
