// Structure from a reset as theorems. No code.
#![tactic(auto)]
