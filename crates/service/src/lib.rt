// The station with thirteen front ends and its steps: definitions, no code.
#![tactic(auto)]
