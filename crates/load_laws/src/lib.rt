// The load of an accepted file leaves every included net well wired, with its free node: `wired` at the start. Laws only, in specs/.
#![tactic(auto)]
