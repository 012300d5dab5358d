// The claims about the whole: statements in specs/, proofs in proofs/, no functions.
#![tactic(auto)]
