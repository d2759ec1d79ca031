// Which rules level Engine tries on two nodes that meet, each once. Laws only, in specs/.
#![tactic(auto)]
