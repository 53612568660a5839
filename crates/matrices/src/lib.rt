// Matrices of weights in flat buffers, by rows: their checks, and the fresh matrix.
#![tactic(auto)]

pub mod checks;
pub mod fresh;
