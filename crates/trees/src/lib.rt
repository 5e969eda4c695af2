// Trees with slots, a hole, order and ranks. No code.
#![tactic(auto)]
