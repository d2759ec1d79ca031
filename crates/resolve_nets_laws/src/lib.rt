// The nets of a tree file are written as the definition resolves them. Laws only, in specs/.
#![tactic(auto)]
