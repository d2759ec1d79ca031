// A stored tree net is written as the definition resolves it. Laws only, in specs/.
#![tactic(auto)]
