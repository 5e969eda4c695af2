// Progress: how many steps a task needs. No code.
#![tactic(auto)]
