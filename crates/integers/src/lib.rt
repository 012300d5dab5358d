// Laws on the integers ℤ: no code, only definitions in specs/ and laws in proofs/.
#![tactic(auto)]
