// How long a net file can be. Laws only, in specs/.
#![tactic(auto)]
