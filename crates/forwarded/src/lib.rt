// Definitions and theorems alone: what is true of the table that a done call of forward leaves, and what refuses the call, exactly.
#![tactic(auto)]
