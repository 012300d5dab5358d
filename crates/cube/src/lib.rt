// The colour cube: definitions in specs/, laws in proofs/.
#![tactic(auto)]
