// The records of the problem file: the checks of one record, and of the two lists of them.
#![tactic(auto)]

pub mod checks;
pub mod lists;

use numbers::{Destination, Node};

// The two lists of a file.
#[derive(Clone, Copy, Debug, PartialEq, Eq)]
pub enum Listing {
    Arcs,
    Attachments,
}

// What a record stands between: an arc leaves one node for another, an attachment joins a destination to a node.
#[derive(Clone, Copy, Debug, PartialEq, Eq)]
pub enum Ends {
    Arc(Node, Node),
    Attachment(Node, Destination),
}
