// Good books have room: what the laws of the words ask of an engine. Laws only, in specs/.
#![tactic(auto)]
