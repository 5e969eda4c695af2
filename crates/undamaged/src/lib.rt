// From a reset nothing is ever damaged. No code.
#![tactic(auto)]
