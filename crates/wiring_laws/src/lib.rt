// What check 7 answers means. Laws only, in specs/.
#![tactic(auto)]
