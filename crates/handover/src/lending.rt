// The calls of a handover: which matrix lends, the row that is lent, and why none is.
// `Square` stays a clause: with a type of it no clause is plainer (docs/DESIGN-PASS.md).
ghost use Rattle.std.specs.Prelude.{◌≡◌, ◌<◌};
ghost use Rattle.refusals.specs.Checks.{answer_told};
ghost use Rattle.matrices.specs.Buffers.{Square};
ghost use Rattle.handover.specs.Calls.{row_part, row_start, handover_check, lender_row, lender_said, lent_row, lent_start};

use super::{Lender, checks};
use guards::network::Network;
use holding::comparing;
use refusals::Refusal;
use weights::WEIGHT_WORDS;

// Which matrix lends: the new one where every entry of it is the best, else the standing one. Refuses 3, 5, 4, 9, 10, 6 on A, 7.
pub fn lender(
    network: &Network<'_>,
    standing: &[u32],
    newer: &[u32],
    i: u32,
) -> Result<Lender, Refusal>
    ensures { lender_said result ≡ lender_row network.now standing.now newer.now i }
{
    let p = checks::ready(network, standing, newer, i)?;
    if comparing::all_best(p, network.n as usize, network.arcs, newer) {
        return Ok(Lender::Newer);
    }
    Ok(Lender::Standing)
}

// Row i of a matrix, lent.
fn row_of<'b>(s: &'b [u32], n: usize, i: usize) -> &'b [u32]
    requires { Square n s.now × (i < n) }
    ensures words { result.now ≡ row_part n i s.now }
    ensures place { result.ref_ptr ≡ row_start n i s.entry.ref_ptr }
{
    let words = n * WEIGHT_WORDS;
    let at = i * words;
    &s[at..at + words]
}

// Row i of the new matrix or of the standing one, lent and not copied; an empty part where the call refuses.
pub fn lent_row<'b>(
    network: &Network<'_>,
    standing: &'b [u32],
    newer: &'b [u32],
    i: u32,
) -> &'b [u32]
    ensures words { result.now ≡ lent_row network.now standing.now newer.now i }
    ensures place { result.ref_ptr ≡ lent_start network.now standing.now newer.now i standing.entry.ref_ptr newer.entry.ref_ptr }
{
    match lender(network, standing, newer, i) {
        Ok(Lender::Newer) => row_of(newer, network.n as usize, i as usize),
        Ok(Lender::Standing) => row_of(standing, network.n as usize, i as usize),
        Err(_) => &standing[0..0],
    }
}

// Why an empty part is lent, or done.
pub fn which_refusal(
    network: &Network<'_>,
    standing: &[u32],
    newer: &[u32],
    i: u32,
) -> Result<(), Refusal>
    ensures { answer_told result ≡ answer_told (handover_check network.now standing.now newer.now i) }
{
    lender(network, standing, newer, i)?;
    Ok(())
}
