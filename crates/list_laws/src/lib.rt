// Laws of tests and of lists, for the laws of the checks. Laws only, in specs/.
#![tactic(auto)]
