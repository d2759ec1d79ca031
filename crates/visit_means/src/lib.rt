// The rules that a visit tries on the words are those that level Engine tries. Laws only, in specs/.
#![tactic(auto)]
