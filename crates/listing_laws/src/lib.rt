// The text of an accepted file. Laws only, in specs/.
#![tactic(auto)]
