// The free chain of a pool passes the image's test, and every place in use is met. Laws only, in specs/.
#![tactic(auto)]
