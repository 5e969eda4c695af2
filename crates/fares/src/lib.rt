// The fares of a tree, and what list, figures and tidy make of it. No code.
#![tactic(auto)]
