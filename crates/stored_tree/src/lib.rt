// Where each part of a tree file stands. Definitions and laws only, in specs/.
#![tactic(auto)]
