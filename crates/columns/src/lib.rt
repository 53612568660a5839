// Settling: a column of a matrix set to the best weights over paths that visit no node twice.
#![tactic(auto)]

pub mod settling;
