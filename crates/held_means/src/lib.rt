// What holds all through a run makes its words a resumable image. Laws only, in specs/.
#![tactic(auto)]
