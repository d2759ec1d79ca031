// The place 0 stays the free nodes' all through a run on the words. Laws only, in specs/.
#![tactic(auto)]
