// What level Engine refuses, it refuses by a refusal's number. Laws only, in specs/.
#![tactic(auto)]
