// The ground of each refusal, in document 01's words. No code.
#![tactic(auto)]
