// The network of the incident: two depots and an order server; every link carries 10.
ghost use Rattle.std.specs.Prelude.{◌<◌};

use super::matrix::Matrix;
use guards::network::Network;
use routes::FIRST_SETTLE;
use std::fmt;
use weights::{Component, Language};

// A link carries up to 10, and more is better.
pub const LANGUAGE: Language = Language {
    count: 1,
    first: Component::Width(LINK),
    second: Component::Dist,
    third: Component::Dist,
    fourth: Component::Dist,
};

pub const NODES: u32 = 3;

const LINK: u16 = 10;

#[derive(Clone, Copy, PartialEq, Eq)]
pub enum Node {
    North,
    South,
    Server,
}

impl Node {
    pub const ALL: [Node; 3] = [Node::North, Node::South, Node::Server];

    pub fn number(self) -> u32
        ensures { result < 3 }
    {
        match self {
            Node::North => 0,
            Node::South => 1,
            Node::Server => 2,
        }
    }
}

impl fmt::Display for Node {
    fn fmt<W: fmt::Write>(&self, f: &mut fmt::Formatter<W>) -> fmt::Result {
        f.write_str(match self {
            Node::North => "North",
            Node::South => "South",
            Node::Server => "the server",
        })
    }
}

// The numbers of a row step of each node.
pub fn sweep() -> [u32; 3] {
    Node::ALL.map(|node| node.number())
}

// The numbers of a settle of each column.
pub fn settles() -> [u32; 3] {
    Node::ALL.map(|node| FIRST_SETTLE + node.number())
}

// A matrix of links.
fn linked(links: &[(Node, Node)]) -> Matrix {
    let mut matrix = Matrix::EMPTY;
    for (from, to) in links {
        matrix.put(*from, *to, [LINK as u32, 0, 0, 0]);
    }
    matrix
}

// Before the incident each depot has a link to the other and one to the server.
pub fn links_before() -> Matrix {
    linked(&[
        (Node::North, Node::South),
        (Node::South, Node::North),
        (Node::North, Node::Server),
        (Node::South, Node::Server),
    ])
}

// The links to the server are lost.
pub fn links_after() -> Matrix {
    linked(&[(Node::North, Node::South), (Node::South, Node::North)])
}

pub fn network(links: &Matrix) -> Network<'_> {
    Network {
        language: LANGUAGE,
        n: NODES,
        arcs: &links.words,
    }
}
