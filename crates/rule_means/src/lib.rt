// What the sets of rules mean at level Engine. Laws only, in specs/.
#![tactic(auto)]
