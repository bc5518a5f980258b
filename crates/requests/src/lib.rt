// Each function for C that takes a step at the station is the step of its order, so a host that calls nothing else has demand 3: no code.
#![tactic(auto)]
