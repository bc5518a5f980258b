// Demand 3: what a list of station steps tells, and that it is as if its committed transactions had run one at a time.
#![tactic(auto)]
