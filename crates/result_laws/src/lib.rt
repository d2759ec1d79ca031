// The result of every run is accepted and read back, and its nets are the engine's. Laws only, in specs/.
#![tactic(auto)]
