// No code: the clauses that every record meets, and the laws of them.
#![tactic(auto)]
