// The scenes of the incident, in order.
use super::matrix::Matrix;
use super::network::{Node, links_after, links_before, settles, sweep};
use super::showing::{RULE, table, title};
use super::telling;
use std::io;

// ---- the words and the standing matrix

const WORDS: &str = "\
A matrix holds what the route from each node to each other carries.
Fresh: each node reaches itself, and nothing else is known yet.
Row step of a node: its routes worked out anew, link by link, from what the
  matrix says of the nodes at the other end. A sweep: a row step of each node.
The equation balances: no row step would change anything.
Settle of a column: the routes to one node worked out from the links alone.
The best: what the best path carries that visits no node twice.
An arc is tight where it gives the route over it what it carries.
Lent: the forwarder reads a row of the new matrix or of the standing one.
";

// What the words on the screens mean.
pub fn words(rt: &impl Print) -> io::Result<()> {
    title(rt, "Words")?;
    rt.print(WORDS)
}

const EVERY_LINK: &str = "\
Every link carries 10. A route carries what its narrowest link carries;
more is better; - is no link, or no route.

";

pub fn before(rt: &impl Print) -> io::Result<()> {
    let links = links_before();
    let standing = Matrix::standing();
    title(
        rt,
        "Before: two depots, North and South, and an order server",
    )?;
    rt.print(EVERY_LINK)?;
    table(rt, "links", &links)?;
    println!(rt; "\nThe standing matrix, from fresh by two sweeps. All is well:\n")?;
    table(rt, "routes", &standing)?;
    println!(rt)?;
    telling::balance(rt, &links, &standing)?;
    telling::tight_arcs(rt, &links, &standing)
}

pub fn lost(rt: &impl Print) -> io::Result<()> {
    let links = links_after();
    title(rt, "Both links to the server are lost")?;
    table(rt, "links", &links)?;
    println!(rt; "\nNobody can reach the server now. The best matrix says so:\n")?;
    table(rt, "best", &Matrix::best(&links))
}

// ---- steps, one screen each

// The new engine, after the incident: the links that are left, the standing matrix, and the new one that it works on.
#[derive(Clone, Copy)]
struct Engine {
    links: Matrix,
    standing: Matrix,
    newer: Matrix,
}

impl Engine {
    fn new(newer: Matrix) -> Engine {
        Engine {
            links: links_after(),
            standing: Matrix::standing(),
            newer,
        }
    }

    // What it is started from, before any step.
    fn start(&self, rt: &impl Print, head: &str) -> io::Result<()> {
        title(rt, head)?;
        self.look(rt, &self.newer)
    }

    // What is seen of the new matrix after a step from what it held before.
    fn look(&self, rt: &impl Print, old: &Matrix) -> io::Result<()> {
        table(rt, "routes", &self.newer)?;
        telling::changed_rows(rt, old, &self.newer)?;
        telling::balance(rt, &self.links, &self.newer)?;
        telling::tight_arcs(rt, &self.links, &self.newer)?;
        telling::lent(rt, &self.links, &self.standing, &self.newer)
    }

    // Runs one step of a node on the new matrix, and shows what it leaves.
    fn step(&mut self, rt: &impl Print, head: &str, number: u32, node: Node) -> io::Result<()> {
        let old = self.newer;
        self.newer.run(&self.links, &[number]);
        print!(rt; "{RULE}{head}{node}{RULE}")?;
        self.look(rt, &old)
    }

    // Runs a step of each node.
    fn steps(&mut self, rt: &impl Print, head: &str, numbers: &[u32; 3]) -> io::Result<()> {
        for (node, number) in Node::ALL.iter().zip(numbers) {
            self.step(rt, head, *number, *node)?;
        }
        Ok(())
    }
}

// What the old matrix shows before any step.
const CIRCLING: &str = "
Each depot's route leans on the other's; orders would go round in circles.
The standing matrix is the old one too: the forwarder keeps what it has, no
better and no worse, until a best matrix takes its place.
";

// The old matrix, swept.
pub fn swept(rt: &impl Print) -> io::Result<()> {
    let mut engine = Engine::new(Matrix::standing());
    engine.start(rt, "The new engine is started from the old matrix")?;
    rt.print(CIRCLING)?;
    engine.steps(rt, "Old matrix, first sweep: row step of ", &sweep())?;
    engine.steps(rt, "Old matrix, second sweep: row step of ", &sweep())?;
    println!(rt; "\nThe equation balances, so no list of row steps will ever change it.")
}

// The same from fresh.
pub fn from_fresh(rt: &impl Print) -> io::Result<()> {
    let mut engine = Engine::new(Matrix::fresh());
    engine.start(rt, "The new engine is started from fresh instead")?;
    engine.steps(rt, "From fresh, first sweep: row step of ", &sweep())?;
    engine.steps(rt, "From fresh, second sweep: row step of ", &sweep())?;
    println!(rt; "\nTwo sweeps from fresh, n - 1 of them, always end in the best.")
}

// The old matrix, repaired.
pub fn settled(rt: &impl Print) -> io::Result<()> {
    let mut engine = Engine::new(Matrix::standing());
    engine.steps(
        rt,
        "The repair, on the old matrix: settle of column ",
        &settles(),
    )?;
    println!(rt; "\nA settle does not look at what its column held: n settles repair every matrix.")
}

const TO_KEEP: &str = "\
A matrix that satisfies the equation need not be the best.
After links have changed, start from fresh and sweep, or settle every column.
The forwarder is lent the new matrix only once every entry of it is the best.
";

pub fn closing(rt: &impl Print) -> io::Result<()> {
    title(rt, "What to keep")?;
    rt.print(TO_KEEP)
}
