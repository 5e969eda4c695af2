// The definitions of document 01 stand in specs/, its rides in proofs/.
#![tactic(auto)]
