// What `to_flat` numbers and in which order its nodes stand; that the walk over stored trees does the same. Theorems only, in specs/.
#![tactic(auto)]
