// Demand 2 as a theorem. No code.
#![tactic(auto)]
