// Exact values of Bezier objects: definitions in specs/, laws in proofs/.
#![tactic(auto)]
