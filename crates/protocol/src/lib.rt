// No code: the protocol is in specs/, its safety theorem and the proofs are in proofs/.
#![tactic(auto)]
