// No later call refuses the words of a run by 16: what begin and slices leave is a resumable image. Laws only, in specs/.
#![tactic(auto)]
