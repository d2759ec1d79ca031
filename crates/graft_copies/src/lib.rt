// The copies that a graft makes on the words are those of level Engine, wired as the originals are. Laws only, in specs/.
#![tactic(auto)]
