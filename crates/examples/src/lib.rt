// The checked examples of document 01, computed from the definitions. Theorems only, in specs/.
#![tactic(auto)]
