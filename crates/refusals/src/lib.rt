// What a refusal leaves. No code.
#![tactic(auto)]
