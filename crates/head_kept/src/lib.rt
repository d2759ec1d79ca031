// Words 0 to 4 of an image are as they were after a load and after a slice, whatever the words are. Laws only, in specs/.
#![tactic(auto)]
