// A run may be cut into slices. Laws only, in specs/.
#![tactic(auto)]
