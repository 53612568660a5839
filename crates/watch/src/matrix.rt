// A matrix of the three nodes: of links, or of routes.
ghost use Rattle.std.specs.Prelude.{◌+◌, ◌≤◌};

use super::network::{LANGUAGE, NODES, Node, links_before, network, settles, sweep};
use weights::{ONES, WEIGHT_WORDS};

// Its words, four to an entry, by rows.
#[derive(Clone, Copy)]
pub struct Matrix {
    pub words: [u32; 36],
}

// Where the entry of two nodes begins.
fn place(from: Node, to: Node) -> usize
    ensures { result + 4 ≤ 36 }
{
    (from.number() as usize * 3 + to.number() as usize) * WEIGHT_WORDS
}

impl Matrix {
    // No links, or no routes.
    pub const EMPTY: Matrix = Matrix { words: [ONES; 36] };

    // No library call here is refused: the language and the sizes are right.
    pub fn fresh() -> Matrix {
        let mut matrix = Matrix::EMPTY;
        let _ = routes::fresh::fresh(LANGUAGE, NODES, &mut matrix.words);
        matrix
    }

    // Runs a list of steps on the routes.
    pub fn run(&mut self, links: &Matrix, list: &[u32]) {
        let _ = steps::steps(&network(links), &mut self.words, list);
    }

    // The best routes over the links: every column settled.
    pub fn best(links: &Matrix) -> Matrix {
        let mut matrix = Matrix::fresh();
        matrix.run(links, &settles());
        matrix
    }

    // Worked out from fresh by two sweeps on the links as they were.
    pub fn standing() -> Matrix {
        let links = links_before();
        let mut matrix = Matrix::fresh();
        matrix.run(&links, &sweep());
        matrix.run(&links, &sweep());
        matrix
    }

    pub fn put(&mut self, from: Node, to: Node, weight: [u32; WEIGHT_WORDS]) {
        let at = place(from, to);
        self.words[at..at + WEIGHT_WORDS].copy_from_slice(&weight);
    }

    pub fn cut(&mut self, from: Node, to: Node) {
        self.put(from, to, [ONES; WEIGHT_WORDS]);
    }

    // What an entry carries, if it is a link or a route.
    pub fn carried(&self, from: Node, to: Node) -> Option<u32> {
        let word = self.words[place(from, to)];
        (word != ONES).then_some(word)
    }
}
