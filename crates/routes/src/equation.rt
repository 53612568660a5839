// The call that says whether a matrix satisfies the routing equation.
ghost use Rattle.std.specs.Prelude.{◌≡◌};
ghost use Rattle.routes.specs.Calls.{equation_row, equation_said};

use super::checks;
use guards::network::Network;
use refusals::Refusal;

// Does R satisfy R = (A join R) best fresh? Refuses 3, 5, 4, 9, 10, 6 on A and R.
pub fn equation(network: &Network<'_>, r: &[u32]) -> Result<bool, Refusal>
    ensures { equation_said result ≡ equation_row network.now r.now }
{
    let p = checks::ready(network, r)?;
    Ok(rows::equation::solves(p, network.n as usize, network.arcs, r))
}
