// Whether a matrix in a buffer holds the best weights, word for word.
#![tactic(auto)]

pub mod comparing;
