// What the resolution of links in a tree net means. Laws only, in specs/.
#![tactic(auto)]
