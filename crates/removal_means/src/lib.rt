// A node is removed, and an edit finished, on the words as level Engine says. Laws only, in specs/.
#![tactic(auto)]
