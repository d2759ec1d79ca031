// Tree nets of a file, measured and written as flat nets, are what `to_flat` of the definitions gives. Theorems only, in specs/.
#![tactic(auto)]
