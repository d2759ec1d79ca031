// What a visit does to nodes, free ports and wires is a step of a registered rule, and a slice takes as many as it deducts. Laws only, in specs/.
#![tactic(auto)]
