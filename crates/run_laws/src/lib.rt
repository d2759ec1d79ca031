// Slices of a run compose. Definitions and laws only, in specs/.
#![tactic(auto)]
