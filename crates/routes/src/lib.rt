// Routes, level records, and what every commit keeps. No code.
#![tactic(auto)]
