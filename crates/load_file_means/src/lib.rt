// The load of an accepted file on the words is level Engine's load of what was read. Laws only, in specs/.
#![tactic(auto)]
