// The wires of an accepted flat net, and a scratch that was made zeros: definitions and laws only, in specs/.
#![tactic(auto)]
