// The rules with a script write no net's name. Laws only, in specs/.
#![tactic(auto)]
