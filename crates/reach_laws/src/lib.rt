// Laws of what is reached: definitions and laws only, in specs/.
#![tactic(auto)]
