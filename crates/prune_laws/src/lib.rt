// Laws of pruning: definitions and laws only, in specs/.
#![tactic(auto)]
