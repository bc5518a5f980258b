// Document 01's station machine, as definitions: the station, its steps, and runs of steps. It has no code.
#![tactic(auto)]
