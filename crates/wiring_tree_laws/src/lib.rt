// Check 7 on a net of trees means what level File says of it. Laws only, in specs/.
#![tactic(auto)]
