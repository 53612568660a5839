// Plain text: the heads of screens, and tables of links and of routes.
use super::matrix::Matrix;
use super::network::Node;
use std::io;

pub const RULE: &str = "\n----------------------------------------------------------------------\n";

// The head of a screen.
pub fn title(rt: &impl Print, text: &str) -> io::Result<()> {
    print!(rt; "{RULE}{text}{RULE}")
}

fn row(rt: &impl Print, label: &str, matrix: &Matrix, from: Node) -> io::Result<()> {
    print!(rt; "  from {label:<6}")?;
    for to in Node::ALL {
        match matrix.carried(from, to) {
            Some(word) => print!(rt; "{word:>11}")?,
            None => print!(rt; "{:>11}", "-")?,
        }
    }
    println!(rt)
}

// A matrix by rows, with a head of its own.
pub fn table(rt: &impl Print, head: &str, matrix: &Matrix) -> io::Result<()> {
    println!(rt; "  {head:<11}   to North   to South  to server")?;
    row(rt, "North", matrix, Node::North)?;
    row(rt, "South", matrix, Node::South)?;
    row(rt, "server", matrix, Node::Server)
}
