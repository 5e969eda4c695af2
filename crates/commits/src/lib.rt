// Each commit changes one place of the tree. No code.
#![tactic(auto)]
