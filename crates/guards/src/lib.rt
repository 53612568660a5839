// The single checks that the calls on a network share, each a refusal or none, and the one entrance of these calls.
#![tactic(auto)]

pub mod entrance;
pub mod network;

ghost use Rattle.std.specs.Prelude.{◌≡◌};
ghost use Rattle.weights.specs.Languages.{places_of};
ghost use Rattle.guards.specs.Checks.{nodes_case, node_case};
ghost use Rattle.guards.specs.Entrance.{length_measured, laws_check};

use refusals::Refusal;
use weights::{Places, WEIGHT_WORDS};

pub const MOST_NODES: u32 = 16;

// 3: the number of nodes.
pub fn check_nodes(n: u32) -> Result<(), Refusal>
    ensures { result ≡ (nodes_case n).check }
{
    if n < 1 || MOST_NODES < n {
        return Err(Refusal::Size { which: 1, place: 0 });
    }
    Ok(())
}

// 9: the words of an n x n matrix; passed where n is over 16, since 3 is told before. Its twin is `check_table_length`: each is pinned by a
// definition of its own, `length_measured` and `table_length_measured`.
pub fn check_length(which: u32, n: u32, s: &[u32]) -> Result<(), Refusal>
    ensures { result ≡ length_measured which n s.now }
{
    if MOST_NODES < n {
        return Ok(());
    }
    let row = n as usize * WEIGHT_WORDS;
    let words = n as usize * row;
    if s.len() != words {
        return Err(Refusal::Length { which, place: 0 });
    }
    Ok(())
}

// 10: law D, then U.
pub fn check_laws(p: Places) -> Result<(), Refusal>
    ensures { result ≡ laws_check (places_of p) }
{
    if !laws::has_d(p) {
        return Err(Refusal::Law { which: 1, place: 0 });
    }
    if !laws::has_u(p) {
        return Err(Refusal::Law { which: 2, place: 0 });
    }
    Ok(())
}

// 7: the node that is the call's argument number `place`. Its twin is `end_check` of `records`: two lines, and neither crate stands on the other.
pub fn check_node(place: u32, n: u32, i: u32) -> Result<(), Refusal>
    ensures { result ≡ (node_case place n i).check }
{
    if n <= i {
        return Err(Refusal::NoSuch { which: 0, place });
    }
    Ok(())
}
