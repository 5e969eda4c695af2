// Histories: any calls from a reset, and what they commit. No code: the definitions that the demands speak of, and computed histories.
#![tactic(auto)]
