// The potential, and what each commit makes of it. No code.
#![tactic(auto)]
