// What the end of a scenario says is so, after every list of steps: a theorem about closing's definitions. It has no code.
#![tactic(auto)]
