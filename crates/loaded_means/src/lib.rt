// What the load of an accepted file leaves on the words is what a run needs. Laws only, in specs/.
#![tactic(auto)]
