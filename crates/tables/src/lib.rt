// Mapping and forwarding tables in flat buffers, by rows: their entries and their checks.
#![tactic(auto)]

pub mod checks;
pub mod entries;
