// The books of a run: slots, marks, lists, pending numbers and waits agree. Laws only, in specs/.
#![tactic(auto)]
