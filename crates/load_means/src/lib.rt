// Nets that come into the engine on the words are those of level Engine. Laws only, in specs/.
#![tactic(auto)]
