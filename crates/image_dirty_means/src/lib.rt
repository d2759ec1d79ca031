// The dirty list of words that mean an engine of a run passes the image's tests. Laws only, in specs/.
#![tactic(auto)]
