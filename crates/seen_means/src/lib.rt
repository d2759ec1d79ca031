// The node that a visit sees on words that mean an engine at rest. Laws only, in specs/.
#![tactic(auto)]
