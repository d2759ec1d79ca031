// A slice on the words is a slice of level Engine, turn by turn. Laws only, in specs/.
#![tactic(auto)]
