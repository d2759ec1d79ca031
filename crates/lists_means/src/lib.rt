// Node lists on the words are those of level Engine. Laws only, in specs/.
#![tactic(auto)]
