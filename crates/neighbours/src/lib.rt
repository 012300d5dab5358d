// Neighbouring samples and the long-step test: definitions in specs/, laws in proofs/.
#![tactic(auto)]
