// The words that begin starts from mean the engine with nothing in it, and are tidy. Laws only, in specs/.
#![tactic(auto)]
