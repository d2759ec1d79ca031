// What holds of every engine that the load of an accepted file and slices reach. Laws only, in specs/.
#![tactic(auto)]
