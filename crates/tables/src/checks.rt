// Refusal 6: the first malformed entry of a table.
// `Sized` stays a clause: `first_malformed_entry` is public, and a type with it would ask more of a
// caller. Its twin is `first_malformed`: each is pinned by a definition of its own, and entries are read by a node and a destination.
ghost use Rattle.std.specs.Prelude.{◌≡◌};
ghost use Rattle.weights.specs.Languages.{places_of};
ghost use Rattle.tables.specs.Tables.{table_check, Sized};

use super::entries;
use modes::Mode;
use numbers::{Destination, Node};
use refusals::Refusal;
use weights::{ENTRY_WORDS, Places};

// Passes, or refuses the first entry, by rows, that is none of the language and the mode with its sums at most cap.
pub fn first_malformed_entry(
    p: Places,
    mode: Mode,
    cap: u32,
    which: u32,
    n: usize,
    m: usize,
    s: &[u32],
) -> Result<(), Refusal>
    requires { Sized n m s.now }
    ensures { result ≡ table_check which mode cap (places_of p) n m s.now }
{
    for e in 0..n * m {
        let node = Node(e / m);
        let destination = Destination(e % m);
        if entries::read_entry(p, mode, cap, s, m, node, destination).is_none() {
            let place = (e * ENTRY_WORDS) as u32;
            return Err(Refusal::Value { which, place });
        }
    }
    Ok(())
}
