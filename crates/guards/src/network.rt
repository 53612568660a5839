// What every call on a network is given: the three that always travel together.
use std::marker::Model;
use weights::Language;

// A language, n, and the words of A. It is lent, since no struct with a lifetime and a model is `Copy`.
#[derive(Drop)]
pub struct Network<'b> {
    pub language: Language,
    pub n: u32,
    pub arcs: &'b [u32],
}

// Contracts see the record of which 01's cases speak; there is no invariant, since a call takes every input.
impl<'b> Model for Network<'b> {
    ghost use Rattle.guards.specs.OnNetwork.{OnNetwork, on_network};

    ghost Value = { OnNetwork };

    ghost view = { λ s. on_network s.language s.n s.arcs.now };
}
