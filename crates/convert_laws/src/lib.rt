// Laws of the conversions: definitions and laws only, in specs/.
#![tactic(auto)]
