// How a list of writes changes what the slots read as: no code, the definitions and laws that the theorems use.
#![tactic(auto)]
