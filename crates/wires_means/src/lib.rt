// The wires of a result on the words have the numbers that level Engine gives them. Laws only, in specs/.
#![tactic(auto)]
