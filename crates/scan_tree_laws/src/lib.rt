// A scan of trees that are read tells their wires, their nodes and their end. Laws only, in specs/.
#![tactic(auto)]
