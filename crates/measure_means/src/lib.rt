// The result is as long as was measured before it is written. Laws only, in specs/.
#![tactic(auto)]
