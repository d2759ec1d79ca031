// Where each part of a net file stands. Definitions and laws only, in specs/.
#![tactic(auto)]
