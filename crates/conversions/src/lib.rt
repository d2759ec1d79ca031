// Conversions and pruning: definitions only, in specs/.
#![tactic(auto)]
