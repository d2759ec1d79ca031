// The table by wire on the words joins the ends that level Engine joins. Laws only, in specs/.
#![tactic(auto)]
