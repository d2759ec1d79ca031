// A tree that is written at a place of a file, and what a walk by offsets meets there. Laws only, in specs/.
#![tactic(auto)]
