// Graft acts and waits on the words of a run as at level Engine, and what holds of the run holds after it. Laws only, in specs/.
#![tactic(auto)]
