// What holds of words and engine between turns and during a visit; so a slice on the words is a slice of level Engine. Laws only, in specs/.
#![tactic(auto)]
