// The library for C: each function takes every input, is one proved call, and answers in four numbers.
#![tactic(auto)]

pub mod forwarding_calls;
pub mod language_calls;
pub mod route_calls;

ghost use Rattle.std.specs.Prelude.{◌≡◌};
ghost use Rattle.door.specs.Languages.{language_of};
ghost use Rattle.guards.specs.OnNetwork.{on_network};

use door::languages::language;
use guards::network::Network;

// The network that a call is given.
fn network<'b>(numbers: &[u16], n: u32, a: &'b [u32]) -> Network<'b>
    ensures { result ≡ on_network (language_of numbers.now) n a.now }
{
    Network {
        language: language(numbers),
        n,
        arcs: a,
    }
}
