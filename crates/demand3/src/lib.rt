// Demand 3 as a theorem. No code.
#![tactic(auto)]
