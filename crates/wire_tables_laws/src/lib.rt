// What the tables by wire mean: the association lists of the definitions. Laws only, in specs/.
#![tactic(auto)]
