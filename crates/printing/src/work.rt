// The work: a list of sweeps over all rows, run from fresh; then the forwarding table.
// The bounds on n stay clauses: `work_routes` is public, and a type with them would ask more of a caller.
ghost use Rattle.std.specs.Prelude.{◌≡◌, ◌+◌, ◌-◌, ◌*◌, ◌≤◌, ◌<◌, length};
ghost use Rattle.decimals.specs.Texts.{Put};
ghost use Rattle.refusals.specs.Checks.{answer_told};
ghost use Rattle.printing.specs.Work.{sweep_list, sweeps_list, routes_told, routes_left, table_told, table_left};

use forwarding::Tables;
use forwarding::forward::forward;
use guards::network::Network;
use refusals::{Refusal, Told};
use routes::fresh::fresh;
use steps::steps;

// Puts 0..n-1 from `at` on.
fn put_sweep(n: usize, at: usize, list: &mut [u32])
    requires { (n ≤ 16) × (at + n ≤ length list.old) }
    ensures { Put (n * 1) list.old at (sweep_list n) list.new (at + n) }
{
    for i in 0..n {
        list[at + i] = i as u32;
    }
}

// Puts the sweeps at the front.
fn put_sweeps(n: usize, list: &mut [u32])
    requires { (0 < n) × (n ≤ 16) × (240 ≤ length list.old) }
    ensures { Put ((n - 1) * n) list.old 0 (sweeps_list n) list.new ((n - 1) * n) }
{
    for t in 0..n - 1 {
        put_sweep(n, t * n, list);
    }
}

// Sweeps all rows n-1 times from fresh, on a buffer r. A match at the end: map_err was tried, and its goals stayed open.
fn sweep(network: &Network<'_>, r: &mut [u32]) -> Result<(), Refusal>
    requires { (0 < network.now.n) × (network.now.n ≤ 16) }
    ensures value { answer_told result ≡ routes_told network.now r.old }
    ensures r_after { r.new ≡ routes_left network.now r.old }
{
    let n = network.n as usize;
    let mut list = [0u32; 240];
    put_sweeps(n, &mut list);
    fresh(network.language, network.n, r)?;
    match steps(network, r, &list[..(n - 1) * n]) {
        Ok(_) => Ok(()),
        Err(stopped) => Err(stopped.refusal),
    }
}

// Sweeps all rows n-1 times from fresh, on a buffer r; returns what the two calls tell.
pub fn work_routes(network: &Network<'_>, r: &mut [u32]) -> Told
    requires { (0 < network.now.n) × (network.now.n ≤ 16) }
    ensures value { result ≡ routes_told network.now r.old }
    ensures r_after { r.new ≡ routes_left network.now r.old }
{
    Told::from(sweep(network, r))
}

// Applies the routes to a mapping table, into a buffer f; returns what the call tells.
pub fn work_table(tables: &Tables<'_>, f: &mut [u32]) -> Told
    ensures value { result ≡ table_told tables.now f.old }
    ensures f_after { f.new ≡ table_left tables.now f.old }
{
    Told::from(forward(tables, f))
}
