// What a step over the four buffers tells and leaves, and that demand 3 goes with it: definitions and proofs, no code.
#![tactic(auto)]
