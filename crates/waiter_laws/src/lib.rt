// Every wait is of a slot and of a net that are there. Laws only, in specs/.
#![tactic(auto)]
