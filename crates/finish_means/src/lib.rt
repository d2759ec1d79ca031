// Finish on the words delivers what level Engine delivers, or refuses as it does. Laws only, in specs/.
#![tactic(auto)]
