// What the names of the held file mean at level Engine. Laws only, in specs/.
#![tactic(auto)]
