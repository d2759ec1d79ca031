// Chains of places that mean lists: laws only, in specs/.
#![tactic(auto)]
