// The next hop's rule: the lowest k other than i whose arc gives the route its weight.
// `Given`, the bounds and p, n, a, r stay clauses and arguments: `hop` is public, and with a struct no clause is plainer (docs/DESIGN-PASS.md).
ghost use Rattle.std.specs.Prelude.{◌≡◌, ◌<◌};
ghost use Rattle.weights.specs.Sizes.{places};
ghost use Rattle.weights.specs.Languages.{places_of};
ghost use Rattle.weights.specs.Values.{weight_of};
ghost use Rattle.matrices.specs.Buffers.{matrix_in};
ghost use Rattle.matrices.specs.Steps.{Given};
ghost use Rattle.hops.specs.NextHop.{is_hop, lowest_from, hop_of, found_at};

use numbers::Node;
use weights::{Places, WEIGHT_WORDS, Weight};

// k is another node than i, and A(i,k) joined R(k,j) is the route R(i,j).
fn is_hop(
    p: Places,
    n: usize,
    a: &[u32],
    r: &[u32],
    i: usize,
    j: usize,
    k: usize,
    route: Weight,
) -> bool
    requires { Given (places_of p) n a.now r.now × (i < n) × (j < n) × (k < n) × (weight_of route ≡ matrix_in places n r.now i j) }
    ensures { result ≡ is_hop (places_of p) (matrix_in places n a.now) (matrix_in places n r.now) i j k }
{
    if k == i {
        return false;
    }
    let x = words::weight_at(a, i * (n * WEIGHT_WORDS) + k * WEIGHT_WORDS);
    let y = words::weight_at(r, k * (n * WEIGHT_WORDS) + j * WEIGHT_WORDS);
    weights::comparing::same(weights::joining::join(p, x, y), route)
}

// The lowest hop, by a loop that yields the found node, or none, as 01 wants it; so k is counted by hand.
fn lowest_hop(
    p: Places,
    n: usize,
    a: &[u32],
    r: &[u32],
    i: usize,
    j: usize,
    route: Weight,
) -> Option<Node>
    requires { Given (places_of p) n a.now r.now × (i < n) × (j < n) × (weight_of route ≡ matrix_in places n r.now i j) }
    ensures { found_at result ≡ lowest_from (is_hop (places_of p) (matrix_in places n a.now) (matrix_in places n r.now) i j) 0 n }
{
    let mut k: usize = 0;
    loop {
        if n <= k {
            break None;
        }
        if is_hop(p, n, a, r, i, j, k, route) {
            break Some(Node(k));
        }
        k += 1;
    }
}

// The next hop: none where i = j and where R(i,j) is no route.
pub fn hop(p: Places, n: usize, a: &[u32], r: &[u32], from: Node, to: Node) -> Option<Node>
    requires { Given (places_of p) n a.now r.now × (from.0 < n) × (to.0 < n) }
    ensures { found_at result ≡ hop_of (places_of p) n (matrix_in places n a.now) (matrix_in places n r.now) from.0 to.0 }
{
    let i = from.0;
    let j = to.0;
    if i == j {
        return None;
    }
    let route = words::weight_at(r, i * (n * WEIGHT_WORDS) + j * WEIGHT_WORDS);
    match route {
        Weight::Route { .. } => lowest_hop(p, n, a, r, i, j, route),
        Weight::NoRoute => None,
    }
}
