// Definitions and theorems alone: demand 3 about histories of calls, and what refuses a call, exactly.
#![tactic(auto)]
