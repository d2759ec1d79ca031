// The turns of a slice last on the words of a run; so slices one after another leave the words and bytes of one slice of their sum. Laws only, in specs/.
#![tactic(auto)]
