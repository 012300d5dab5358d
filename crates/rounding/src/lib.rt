// The coordinate of an exact value, a half going down, for samples and swatches: definitions in specs/, laws in proofs/.
#![tactic(auto)]
