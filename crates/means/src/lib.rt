// When words mean an engine, part by part, and what a write elsewhere keeps. Laws only, in specs/.
#![tactic(auto)]
