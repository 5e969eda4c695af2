// How strict the promises are: two outcomes that meet the same promise are equal. No code.
#![tactic(auto)]
