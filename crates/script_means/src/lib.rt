// A rule's edits on the words do what level Engine says of its script; the dead list is kept. Laws only, in specs/.
#![tactic(auto)]
