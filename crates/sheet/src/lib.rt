// The stroke sheet: definitions and their laws, no functions.
#![tactic(auto)]
