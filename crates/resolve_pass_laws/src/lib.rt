// The two passes over stored links are those of the definition. Laws only, in specs/.
#![tactic(auto)]
