// Every level record has an owner. No code.
#![tactic(auto)]
