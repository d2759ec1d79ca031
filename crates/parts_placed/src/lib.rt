// Where the parts of an accepted file stand, each as it is written. Laws only, in specs/.
#![tactic(auto)]
