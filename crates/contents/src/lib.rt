// What a problem file lists, written into two lent buffers.
#![tactic(auto)]

pub mod writing;
