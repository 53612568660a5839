// Node numbers and destination numbers belong to disjoint namespaces: a node is never taken for a destination.
#![tactic(auto)]

#[derive(Clone, Copy, Debug, PartialEq, Eq)]
pub struct Node(pub usize);

#[derive(Clone, Copy, Debug, PartialEq, Eq)]
pub struct Destination(pub usize);
