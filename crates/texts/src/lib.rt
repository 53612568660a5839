// The lines of the printed text, put one after the other into a lent buffer of bytes.
#![tactic(auto)]

pub mod lines;
pub mod pieces;
pub mod rows;
