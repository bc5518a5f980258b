// One transaction from a blank station to its last done, computed: so no claim about lists of steps is about nothing. It has no code.
#![tactic(auto)]
