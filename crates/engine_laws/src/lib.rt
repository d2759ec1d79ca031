// Laws of the engine's books. Laws only, in specs/.
#![tactic(auto)]
