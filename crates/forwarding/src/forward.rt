// The call that writes the forwarding table.
ghost use Rattle.std.specs.Prelude.{◌≡◌};
ghost use Rattle.refusals.specs.Checks.{answer_told};
ghost use Rattle.forwarding.specs.Calls.{forward_check, forward_left};

use super::Tables;
use super::checks::check_contents;
use guards::entrance::enter;
use guards::{check_length, check_nodes};
use modes::choosing::mode_for;
use refusals::Refusal;
use table_guards::{check_destinations, check_mode, check_table_length, chosen_mode};

// Makes f the table whose entry (i, d) is the best over k of R(i,k) applied to M(k,d). Refuses 3, 5, 4, 9, 10, 6 on A, R and M, 12.
pub fn forward(tables: &Tables<'_>, f: &mut [u32]) -> Result<(), Refusal>
    ensures answer { answer_told result ≡ answer_told (forward_check tables.now f.old) }
    ensures f_after { f.new ≡ forward_left tables.now f.old }
{
    let network = &tables.network;
    let chosen = mode_for(network.language, tables.m as usize, tables.mode);
    let others = check_destinations(tables.m).and(check_mode(chosen));
    let arcs = check_length(1, network.n, network.arcs);
    let matrices = arcs.and(check_length(2, network.n, tables.routes));
    let mapping_length = check_table_length(3, network.n, tables.m, tables.mapping);
    let table_length = check_table_length(4, network.n, tables.m, f);
    let table_lengths = mapping_length.and(table_length);
    let sizes = check_nodes(network.n).and(others);
    let p = enter(network.language, sizes, matrices.and(table_lengths))?;
    let meant = chosen_mode(chosen);
    let n = network.n as usize;
    let m = tables.m as usize;
    check_contents(p, meant, n, m, network.arcs, tables.routes, tables.mapping)?;
    sums::forward_table(p, meant, n, m, tables.routes, tables.mapping, f);
    Ok(())
}
