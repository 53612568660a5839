// What is told of the new matrix after each step: the rows that changed, whether the equation balances, the tight arcs that lead from
// the two depots, and which matrix the forwarder is lent, and why. The equation, the tight arcs, the best and the lender are what the
// library's calls answer; here they are compared and named.
use super::matrix::Matrix;
use super::network::{Node, network};
use handover::Lender;
use handover::lending::lender;
use hops::next_hop::next_hop;
use routes::equation;
use std::{fmt, io};

fn is_changed(old: &Matrix, new: &Matrix, from: Node, to: Node) -> bool {
    old.carried(from, to) != new.carried(from, to)
}

// ---- rows that changed

// The loop prints, which can fail: so it tells by a flag whether it printed.
pub fn changed_rows(rt: &impl Print, old: &Matrix, new: &Matrix) -> io::Result<()> {
    print!(rt; "\n  rows changed:         ")?;
    let mut none = true;
    for from in Node::ALL {
        if Node::ALL.iter().any(|to| is_changed(old, new, from, *to)) {
            print!(rt; " {from}")?;
            none = false;
        }
    }
    println!(rt; "{}", if none { " none" } else { "" })
}

// ---- the equation

pub fn balance(rt: &impl Print, links: &Matrix, routes: &Matrix) -> io::Result<()> {
    let said = match equation::equation(&network(links), &routes.words) {
        Ok(true) => "balances",
        Ok(false) => "does not balance",
        Err(_) => "refused",
    };
    println!(rt; "  the equation:          {said}")
}

// ---- tight arcs

// Each arc of a depot, from and to, and where the depot's other arc leads.
const DEPOT_ARCS: [(Node, Node, Node); 4] = [
    (Node::North, Node::South, Node::Server),
    (Node::North, Node::Server, Node::South),
    (Node::South, Node::North, Node::Server),
    (Node::South, Node::Server, Node::North),
];

// An arc is tight where it gives the route to the server its weight: it is the next hop once the node's other arc is cut.
fn is_tight(links: &Matrix, routes: &Matrix, from: Node, to: Node, other: Node) -> bool {
    let mut alone = *links;
    alone.cut(from, other);
    let hop = next_hop(
        &network(&alone),
        &routes.words,
        from.number(),
        Node::Server.number(),
    );
    matches!(hop, Ok(Some(node)) if node.0 == to.number() as usize)
}

pub fn tight_arcs(rt: &impl Print, links: &Matrix, routes: &Matrix) -> io::Result<()> {
    print!(rt; "  tight to the server:")?;
    let mut none = true;
    for (from, to, other) in DEPOT_ARCS {
        if is_tight(links, routes, from, to, other) {
            print!(rt; "\n                         {from} -> {to}")?;
            none = false;
        }
    }
    println!(rt; "{}", if none { "   none" } else { "" })
}

// ---- the matrix that is lent

// What a route carries, in words.
#[derive(Clone, Copy)]
struct Carried(Option<u32>);

impl fmt::Display for Carried {
    fn fmt<W: fmt::Write>(&self, f: &mut fmt::Formatter<W>) -> fmt::Result {
        match self.0 {
            Some(word) => write!(f, "{word}"),
            None => f.write_str("no route"),
        }
    }
}

// Tells the first entry, by rows, that is not the best.
fn tell_first(rt: &impl Print, newer: &Matrix, best: &Matrix) -> io::Result<()> {
    for i in 0..9 {
        let from = Node::ALL[i / 3];
        let to = Node::ALL[i % 3];
        if is_changed(newer, best, from, to) {
            let held = Carried(newer.carried(from, to));
            let most = Carried(best.carried(from, to));
            return println!(rt;
                "                         from {from} to {to} it holds {held}, and the best is {most}"
            );
        }
    }
    Ok(())
}

pub fn lent(rt: &impl Print, links: &Matrix, standing: &Matrix, newer: &Matrix) -> io::Result<()> {
    print!(rt; "  the forwarder is lent: ")?;
    let row = Node::North.number();
    match lender(&network(links), &standing.words, &newer.words, row) {
        Ok(Lender::Newer) => println!(rt; "the new matrix, since every entry of it is the best"),
        Ok(Lender::Standing) => {
            println!(rt; "the standing matrix, since the new one is not the best:")?;
            tell_first(rt, newer, &Matrix::best(links))
        }
        Err(_) => println!(rt; "nothing: the call was refused"),
    }
}
