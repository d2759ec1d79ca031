// Ports, wires and dirty marks on the words do what level Engine says. Laws only, in specs/.
#![tactic(auto)]
