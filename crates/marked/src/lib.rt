// No code: document 01's marked cases, as one table with one fact proved over all of its rows.
#![tactic(auto)]
