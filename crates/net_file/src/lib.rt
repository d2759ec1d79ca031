// Level File: definitions only. What a net file is stands in specs/.
#![tactic(auto)]
