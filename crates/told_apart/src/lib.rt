// Files that tell one reading of document 01 from another. Theorems only, in specs/.
#![tactic(auto)]
