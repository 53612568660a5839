// The call that gives the next hop from i to j.
ghost use Rattle.std.specs.Prelude.{◌≡◌};
ghost use Rattle.hops.specs.Calls.{hop_row, hop_said};

use super::search;
use guards::check_node;
use guards::network::Network;
use numbers::Node;
use refusals::Refusal;
use routes::checks;

// The next hop from i to j, or that there is none. Refuses 3, 5, 4, 9, 10, 6 on A and R, 7.
pub fn next_hop(network: &Network<'_>, r: &[u32], i: u32, j: u32) -> Result<Option<Node>, Refusal>
    ensures { hop_said result ≡ hop_row network.now r.now i j }
{
    let p = checks::ready(network, r)?;
    check_node(0, network.n, i).and(check_node(1, network.n, j))?;
    let from = Node(i as usize);
    let to = Node(j as usize);
    Ok(search::hop(p, network.n as usize, network.arcs, r, from, to))
}
