// Waits on the words: a place is taken, a node waits, as level Engine says. Laws only, in specs/.
#![tactic(auto)]
