// The included nets of a file come into the engine on the words as level Engine says. Laws only, in specs/.
#![tactic(auto)]
