// No code: theorems about the calls of a handover.
#![tactic(auto)]
