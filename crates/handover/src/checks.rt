// The checks of a handover: 3, 5, 4, 9, 10, 6 on A, 7. Neither matrix's entries are looked at.
ghost use Rattle.handover.specs.Parts.{HandoverReady};

use guards::entrance::enter;
use guards::network::Network;
use guards::{check_length, check_node, check_nodes};
use matrices::checks::first_malformed;
use refusals::Refusal;
use weights::{ARC_SUM, Places};

// All checks of a handover, in order; the lengths are those of A (1), the new matrix (2) and the standing one (5).
pub fn ready(
    network: &Network<'_>,
    standing: &[u32],
    newer: &[u32],
    i: u32,
) -> Result<Places, Refusal>
    ensures { HandoverReady network.now standing.now newer.now i result }
{
    let matrices = check_length(2, network.n, newer).and(check_length(5, network.n, standing));
    let lengths = check_length(1, network.n, network.arcs).and(matrices);
    let p = enter(network.language, check_nodes(network.n), lengths)?;
    let arcs = first_malformed(p, ARC_SUM, 1, network.n as usize, network.arcs);
    arcs.and(check_node(0, network.n, i))?;
    Ok(p)
}
