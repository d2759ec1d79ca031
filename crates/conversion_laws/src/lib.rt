// Laws of the conversions. Laws only, in specs/.
#![tactic(auto)]
