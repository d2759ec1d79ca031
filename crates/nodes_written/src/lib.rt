// The nodes of a result on the words are written as level Engine lists them. Laws only, in specs/.
#![tactic(auto)]
