// No code: the laws of the clauses under a delivery.
#![tactic(auto)]
