// The call that forwards: it applies a routing matrix to a mapping table. It takes every input.
#![tactic(auto)]

pub mod checks;
pub mod forward;

use guards::network::Network;
use std::marker::Model;

// What the call is given: a network, m, the number of the mode, by which it is refused, and the words of R and M.
#[derive(Drop)]
pub struct Tables<'b> {
    pub network: Network<'b>,
    pub m: u32,
    pub mode: u32,
    pub routes: &'b [u32],
    pub mapping: &'b [u32],
}

// Contracts see the record of which 01's cases speak; there is no invariant, since the call takes every input.
impl<'b> Model for Tables<'b> {
    ghost use Rattle.forwarding.specs.Calls.{OnTables, on_tables};

    ghost Value = { OnTables };

    ghost view = { λ s. on_tables s.network s.m s.mode s.routes.now s.mapping.now };
}
