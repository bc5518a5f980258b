// What a list of the service's steps tells, and that demand 3 holds of it: definitions and proofs, no code.
#![tactic(auto)]
