// What the checks of the tables mean. Laws only, in specs/.
#![tactic(auto)]
