// The walk over stored trees writes what the definition gives. Laws only, in specs/.
#![tactic(auto)]
