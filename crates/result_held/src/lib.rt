// What the laws of the result ask is there for every engine that an accepted file and slices reach. Laws only, in specs/.
#![tactic(auto)]
