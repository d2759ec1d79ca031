// The loop comes to an end before its fuel does; slices compose without a condition. Laws only, in specs/.
#![tactic(auto)]
