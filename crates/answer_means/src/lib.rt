// Waits answered on the words: oldest first, a net thereby at 0 before the next, as level Engine says. Laws only, in specs/.
#![tactic(auto)]
