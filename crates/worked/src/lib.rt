// 01's list P1 to P9 as one theorem; there is no code.
#![tactic(auto)]
