// No rule can act where a slice ends with steps over. Laws only, in specs/.
#![tactic(auto)]
