// The finish: a net's file form is its graph, its wires numbered at first meeting, and is well wired. Laws only, in specs/.
#![tactic(auto)]
