// Key totals: definitions and laws, no functions.
#![tactic(auto)]
