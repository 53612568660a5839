// Refusal 6: the first malformed entry of a matrix.
// `Square` stays a clause: `first_malformed` is public, and a type with it would ask more of a caller. Its twin is
// `first_malformed_entry`: each is pinned by a definition of its own, and entries are read by a node and a destination.
ghost use Rattle.std.specs.Prelude.{◌≡◌};
ghost use Rattle.weights.specs.Languages.{places_of};
ghost use Rattle.matrices.specs.Buffers.{matrix_check, Square};

use refusals::Refusal;
use weights::{Places, WEIGHT_WORDS};

// Passes, or refuses the first entry, by rows, that is no weight of the language with its sums at most cap.
pub fn first_malformed(p: Places, cap: u32, which: u32, n: usize, s: &[u32]) -> Result<(), Refusal>
    requires { Square n s.now }
    ensures { result ≡ matrix_check which cap (places_of p) n s.now }
{
    for e in 0..n * n {
        let at = e * WEIGHT_WORDS;
        if words::read_at(p, cap, s, at).is_none() {
            let place = at as u32;
            return Err(Refusal::Value { which, place });
        }
    }
    Ok(())
}
