// The slots of words that mean an engine of a run pass the image's tests. Laws only, in specs/.
#![tactic(auto)]
