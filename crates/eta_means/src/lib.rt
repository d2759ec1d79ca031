// Eta on the words does what level Engine says of its script. Laws only, in specs/.
#![tactic(auto)]
