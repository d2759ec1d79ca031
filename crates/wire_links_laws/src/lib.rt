// The table of links by wire means the links of the definitions; its pairs are theirs. Theorems only, in specs/.
#![tactic(auto)]
