// Level File: what is written is read back, and what is read is what was written. Theorems only, in specs/.
#![tactic(auto)]
