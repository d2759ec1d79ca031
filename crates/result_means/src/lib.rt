// The result written on the words is level Engine's result, byte by byte. Laws only, in specs/.
#![tactic(auto)]
