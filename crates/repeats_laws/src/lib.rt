// What `repeats` answers means. Definitions and laws only, in specs/.
#![tactic(auto)]
