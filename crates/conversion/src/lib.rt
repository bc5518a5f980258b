// No code: what converting a station is, and that its running goes on, are in specs/ and proofs/.
#![tactic(auto)]
