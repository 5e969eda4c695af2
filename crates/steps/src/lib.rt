// What each step does to the tree and to the task. No code.
#![tactic(auto)]
