// The checks that the calls on A and R share (equation, steps, next hop), in 01's order.
ghost use Rattle.routes.specs.Ready.{MatricesReady};

use guards::entrance::enter;
use guards::network::Network;
use guards::{check_length, check_nodes};
use matrices::checks::first_malformed;
use refusals::Refusal;
use weights::{ARC_SUM, MATRIX_SUM, Places};

// 3, 5, 4, 9, 10, 6 on A, then on R.
pub fn ready(network: &Network<'_>, r: &[u32]) -> Result<Places, Refusal>
    ensures { MatricesReady network.now r.now result }
{
    let lengths = check_length(1, network.n, network.arcs).and(check_length(2, network.n, r));
    let p = enter(network.language, check_nodes(network.n), lengths)?;
    let n = network.n as usize;
    let arcs = first_malformed(p, ARC_SUM, 1, n, network.arcs);
    let routes = first_malformed(p, MATRIX_SUM, 2, n, r);
    arcs.and(routes)?;
    Ok(p)
}
