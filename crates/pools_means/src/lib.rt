// Vacant slots on the words are taken and given as level Engine says. Laws only, in specs/.
#![tactic(auto)]
