// The next hop: the call, which takes every input, and the rule in a file of its own.
#![tactic(auto)]

pub mod next_hop;
pub mod search;
