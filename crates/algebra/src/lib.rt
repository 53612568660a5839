// Definitions and theorems alone: what a routing algebra is, and what holds of every one that is lawful.
#![tactic(auto)]
