// Level File: what the readers give is the part of what was read that they name. Theorems only, in specs/.
#![tactic(auto)]
