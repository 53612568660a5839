// The calls that use routes: forwarding, the next hop and the handover.
ghost use Rattle.std.specs.Prelude.{◌≡◌};
ghost use Rattle.door.specs.Languages.{language_of};
ghost use Rattle.guards.specs.OnNetwork.{on_network};
ghost use Rattle.forwarding.specs.Calls.{on_tables, forward_left};
ghost use Rattle.tronglephu.specs.Calls.{forward_reply, hop_reply, handover_reply};

use super::network;
use door::replies::{answered, done, refused};
use door::{NEWER, NO_NODE, Reply, STANDING};
use forwarding::Tables;
use handover::Lender;

// Makes f the forwarding table.
#[unsafe(no_mangle)]
pub extern "C" fn tronglephu_forward(
    numbers: &[u16],
    n: u32,
    m: u32,
    mode: u32,
    a: &[u32],
    r: &[u32],
    mapping: &[u32],
    f: &mut [u32],
) -> Reply
    ensures value { result ≡ forward_reply (on_tables (on_network (language_of numbers.now) n a.now) m mode r.now mapping.now) f.old }
    ensures f_after { f.new ≡ forward_left (on_tables (on_network (language_of numbers.now) n a.now) m mode r.now mapping.now) f.old }
{
    let network = network(numbers, n, a);
    let tables = Tables {
        network,
        m,
        mode,
        routes: r,
        mapping,
    };
    answered(forwarding::forward::forward(&tables, f))
}

// The next hop from i to j, 255 for none.
#[unsafe(no_mangle)]
pub extern "C" fn tronglephu_next_hop(
    numbers: &[u16],
    n: u32,
    a: &[u32],
    r: &[u32],
    i: u32,
    j: u32,
) -> Reply
    ensures { result ≡ hop_reply (on_network (language_of numbers.now) n a.now) r.now i j }
{
    let network = network(numbers, n, a);
    match hops::next_hop::next_hop(&network, r, i, j) {
        Ok(Some(node)) => done(node.0 as u32),
        Ok(None) => done(NO_NODE),
        Err(x) => refused(x, 0),
    }
}

// The buffer that lends row i: 2 the new matrix, 5 the standing one.
#[unsafe(no_mangle)]
pub extern "C" fn tronglephu_handover(
    numbers: &[u16],
    n: u32,
    a: &[u32],
    standing: &[u32],
    newer: &[u32],
    i: u32,
) -> Reply
    ensures { result ≡ handover_reply (on_network (language_of numbers.now) n a.now) standing.now newer.now i }
{
    let network = network(numbers, n, a);
    match handover::lending::lender(&network, standing, newer, i) {
        Ok(Lender::Newer) => done(NEWER),
        Ok(Lender::Standing) => done(STANDING),
        Err(x) => refused(x, 0),
    }
}
