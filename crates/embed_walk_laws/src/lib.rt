// The walk over stored trees numbers and writes what `to_flat` of the definitions gives. Theorems only, in specs/.
#![tactic(auto)]
