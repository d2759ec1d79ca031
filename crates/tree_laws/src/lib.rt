// Level File: what stands where in a tree file that was read, for code that walks over its trees place by place. Theorems only, in specs/.
#![tactic(auto)]
