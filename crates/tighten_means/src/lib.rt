// The dirty list is made tight on the words as level Engine says. Laws only, in specs/.
#![tactic(auto)]
